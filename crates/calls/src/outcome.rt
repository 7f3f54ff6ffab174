// What a call gives, and what stands before every call.
ghost use Rattle.std.specs.Prelude.{◌≡◌};
ghost use Rattle.refusals.specs.Refusals.{plain};
ghost use Rattle.state.specs.Configuration.{no_signature};
ghost use Rattle.calls.specs.Response.{are_roomy, is_reading, taking_back};

use limits::{BLOCK_LIMIT, HEAD_LIMIT};
use state::{Phase, Reader, Stepped, Word};

// The word, how many bytes of the piece were taken, the signature that a question is about (else zeros), and the reader after the
// call.
#[derive(Clone, Copy)]
pub struct Outcome {
    pub word: Word,
    pub taken: usize,
    pub signature: [u8; 64],
    pub reader: Reader,
}

// A word that is no question.
pub fn told(word: Word, taken: usize, r: Reader) -> Outcome
    ensures { result ≡ record { word = word; taken = taken; signature = no_signature; reader = r } }
{
    Outcome {
        word,
        taken,
        signature: [0; 64],
        reader: r,
    }
}

// A refusal that changes nothing: 1 where the call is not due, 2 where a buffer or the ring has not the size that is asked.
// Kept (DESIGN-PASS 1): of any number, as `Refusal` has it.
pub fn unchanged(r: Reader, number: u8) -> Outcome
    ensures { result ≡ record { word = Word.Refused (plain number); taken = 0; signature = no_signature; reader = r } }
{
    told(Word::Refused(refusals::plain(number)), 0, r)
}

// The end of a call by what its last step leads to.
pub fn ended(s: Stepped, taken: usize) -> Outcome
    ensures { result ≡ record { word = s.word; taken = taken; signature = s.signature; reader = s.reader } }
{
    let Stepped {
        word,
        signature,
        reader,
    } = s;
    Outcome {
        word,
        taken,
        signature,
        reader,
    }
}

// Whether buffers of these lengths have the room that every call asks.
#[tactic(auto, unfolding(crate::specs::Response::are_roomy))]
pub fn are_roomy(head: usize, block: usize, question: usize) -> bool
    ensures { result ≡ are_roomy head block question }
{
    (HEAD_LIMIT <= head) & ((BLOCK_LIMIT <= block) & (HEAD_LIMIT <= question))
}

// Whether the reader reads on: no question is open, and no last word has been said.
pub fn is_reading(p: Phase) -> bool
    ensures { result ≡ is_reading p }
{
    matches!(
        p,
        Phase::Head(_)
            | Phase::FirstLine(_)
            | Phase::Data { .. }
            | Phase::DataEnd { .. }
            | Phase::NextLine { .. }
            | Phase::Trailer { .. }
    )
}

// The same reader with no block handed out.
pub fn recalled(r: Reader) -> Reader
    ensures { result ≡ taking_back r }
{
    Reader { released: 0, ..r }
}
