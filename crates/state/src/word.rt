// The words of the reader.
ghost use Rattle.std.specs.Prelude.{◌≡◌};
ghost use Rattle.state.specs.Configuration.{goes_on};

use blocks::ByteOffset;
use refusals::Refusal;

// What a call says. Closed, Complete and Refused are final, but for the refusals 1 and 2, which answer a call and change nothing.
#[derive(Clone, Copy)]
pub enum Word {
    More,
    Question { length: usize, key: usize },
    Head(u64),
    Block { offset: ByteOffset, length: usize },
    Closed(u64),
    Complete(u64),
    Refused(Refusal),
}

// Whether the reader goes on to the next byte: any other word ends the call.
pub fn goes_on(w: Word) -> bool
    ensures { result ≡ goes_on w }
{
    matches!(w, Word::More)
}
