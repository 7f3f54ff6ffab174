// What a byte leads to, and the final refusal.
ghost use Rattle.std.specs.Prelude.{List, ◌≡◌, ℕ};
ghost use Rattle.state.specs.Configuration.{configuration, next_of, saying, refuse};

use crate::buffers::clear;
use crate::phase::Phase;
use crate::reader::{Reader, in_phase};
use crate::word::Word;
use refusals::Refusal;

// What a byte leads to: the word, the signature that a question is about (else zeros), and the reader after it. With the
// word More the reader goes on to the next byte.
#[derive(Clone, Copy)]
pub struct Stepped {
    pub word: Word,
    pub signature: [u8; 64],
    pub reader: Reader,
}

// A word that is no question.
pub fn said(word: Word, r: Reader) -> Stepped
    ensures { result ≡ saying word r }
{
    Stepped {
        word,
        signature: [0; 64],
        reader: r,
    }
}

// A final refusal: the first `count` bytes of the block buffer, those that are pending, are set to zero.
#[tactic(auto, unfolding(crate::specs::Configuration::refuse))]
pub fn refused(r: Reader, block: &mut [u8], count: usize, why: Refusal) -> Stepped
    ensures { (h q : List ℕ) → next_of result h block.new q ≡ refuse why count (configuration r h block.old q) }
{
    clear(block, count);
    said(Word::Refused(why), in_phase(r, Phase::Refused(why.number)))
}
