// The result of a call: its word, how many bytes were taken, the two numbers of the word, and a signature.
ghost use Rattle.std.specs.Prelude.{◌≡◌};
ghost use Rattle.std.proofs.lemmas.List.Edits.{sets};
ghost use Rattle.results.specs.Results.{word_of, first_in, second_in, result_bytes, told, ending};

use packing::{put_array, put_numbers};
use state::Word;

// How many bytes a result takes.
pub const RESULT_SIZE: usize = 96;

// The word's number, and the two numbers that it carries, 0 where it carries none.
fn numbers(w: Word) -> (u8, u64, u64)
    ensures { (result.0 ≡ word_of w) × (result.1 ≡ first_in w) × (result.2 ≡ second_in w) }
{
    match w {
        Word::More => (0, 0, 0),
        Word::Question { length, key } => (1, length as u64, key as u64),
        Word::Head(status) => (2, status, 0),
        Word::Block { offset, length } => (3, offset.0, length as u64),
        Word::Closed(total) => (4, total, 0),
        Word::Complete(total) => (6, total, 0),
        Word::Refused(why) => (5, u64::from(why.number), why.at as u64),
    }
}

// Writes the result over the front of the buffer, and gives the word's number. A buffer that is too short is left as it is.
#[tactic(auto, unfolding(crate::specs::Results::result_in))]
pub fn tell(word: Word, taken: usize, signature: [u8; 64], res: &mut [u8]) -> u8
    ensures { ending result res.new ≡ told word taken signature res.old }
{
    let (number, first, second) = numbers(word);
    if res.len() < RESULT_SIZE {
        return number;
    }
    put_numbers(res, 0, &[u64::from(number), taken as u64, first, second]);
    put_array(res, 32, signature);
    number
}
