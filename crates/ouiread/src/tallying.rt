// The tally of the program's events, lent to be counted in.
ghost use Rattle.std.specs.Prelude.{◌≡◌};
ghost use Rattle.tally.specs.Counting.{tallied_after};

use state::Word;
use tally::Tally;

// The tally after a call that says the word. It is lent here alone: all above has it by value.
pub fn counted(t: Tally, word: Word) -> Tally
    ensures { result ≡ tallied_after t word }
{
    let mut day = t;
    tally::count(&mut day, word);
    day
}
