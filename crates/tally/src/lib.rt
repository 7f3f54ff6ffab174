// The day tally: what a day's streams came to, counted event by event.
#![tactic(auto)]

ghost use Rattle.std.specs.Prelude.{◌≡◌};
ghost use Rattle.tally.specs.Counting.{no_counts, with_block, with_closed, with_refused, refused_by, tallied_after};

use state::Word;

// Blocks, the bytes released in them, streams closed, complete ones among them, and streams finally refused.
#[derive(Clone, Copy)]
pub struct Tally {
    pub blocks: u64,
    pub bytes: u64,
    pub closed: u64,
    pub refused: u64,
}

// A tally before its day.
pub fn zero() -> Tally
    ensures { result ≡ no_counts }
{
    Tally {
        blocks: 0,
        bytes: 0,
        closed: 0,
        refused: 0,
    }
}

// One block more, of so many bytes. A count that would pass its largest value stays there.
fn with_block(t: Tally, length: usize) -> Tally
    ensures { result ≡ with_block t length }
{
    Tally {
        blocks: t.blocks.saturating_add(1),
        bytes: t.bytes.saturating_add(length as u64),
        ..t
    }
}

// One stream more that closed, or was complete.
fn with_closed(t: Tally) -> Tally
    ensures { result ≡ with_closed t }
{
    Tally {
        closed: t.closed.saturating_add(1),
        ..t
    }
}

// One stream more that was refused; 1 and 2 refuse a call and no stream.
// Kept (DESIGN-PASS 1): a word may carry any number, and `counted` promises an answer for each.
fn with_refused(t: Tally, number: u8) -> Tally
    ensures { result ≡ refused_by t number }
{
    match number {
        1 | 2 => t,
        _ => Tally {
            refused: t.refused.saturating_add(1),
            ..t
        },
    }
}

// The tally after a call that says the word, by value.
#[tactic(auto, unfolding(crate::specs::Counting::tallied_after))]
pub fn counted(t: Tally, word: Word) -> Tally
    ensures { result ≡ tallied_after t word }
{
    match word {
        Word::More | Word::Question { .. } | Word::Head(_) => t,
        Word::Block { length, .. } => with_block(t, length),
        Word::Closed(_) | Word::Complete(_) => with_closed(t),
        Word::Refused(why) => with_refused(t, why.number),
    }
}

// The same, changed in place: the tally is lent, taken out, and put back as the update by value gives it.
pub fn count(t: &mut Tally, word: Word)
    ensures { t.new ≡ tallied_after t.old word }
{
    *t = counted(*t, word);
}
