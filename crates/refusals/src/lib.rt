// The refusal of a stream, as words and answers carry it.
#![tactic(auto)]

ghost use Rattle.std.specs.Prelude.{◌≡◌};
ghost use Rattle.stream.specs.Events.{has_place};
ghost use Rattle.refusals.specs.Refusals.{plain as plainRefusal, refusal_of};

// The number, and where the text went wrong, counted from the first byte of the section; 0 where the refusal has no such place.
// Kept (DESIGN-PASS 1): every number has its answer here, in `calls::unchanged` and in `tally::counted`: an enum of those that the reader gives would ask more.
#[derive(Clone, Copy)]
pub struct Refusal {
    pub number: u8,
    pub at: usize,
}

// Whether a refusal of this number tells a place.
// Kept (DESIGN-PASS 1): of any number, as `Refusal` has it.
pub fn has_place(number: u8) -> bool
    ensures { result ≡ has_place number }
{
    matches!(number, 3 | 6)
}

// A refusal that has no place.
// Kept (DESIGN-PASS 1): of any number, as `Refusal` has it.
pub fn plain(number: u8) -> Refusal
    ensures { result ≡ plainRefusal number }
{
    Refusal { number, at: 0 }
}

// The refusal of a section whose text went wrong at `place`, if it went wrong.
// Kept (DESIGN-PASS 1): of any number, as `Refusal` has it.
pub fn of_section(number: u8, place: usize) -> Refusal
    ensures { result ≡ refusal_of number place }
{
    if has_place(number) {
        return Refusal { number, at: place };
    }
    plain(number)
}
