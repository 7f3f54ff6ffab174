// The judgement of a head for a program in C or Rust, with numbers and slices of bytes alone.
#![tactic(auto)]

ghost use Rattle.std.specs.Prelude.{◌≡◌};
ghost use Rattle.ring.specs.Keys.{ring_of};
ghost use Rattle.head_export.specs.Export.{made, answered, number_of, one_key};

use judging::Asked;
use refusals::Refusal;
use ring::{KeyRecord, KeyRing};

// A ring of one record, its key written in base64. A text that is no key gives a ring of none.
fn one_key(text: &[u8], first: u64, last: u64) -> KeyRing
    ensures { ring_of result ≡ one_key text.now first last }
{
    let mut key = [0; 32];
    if !base64_text::key(text, &mut key) {
        return ring::empty();
    }
    ring::added(ring::empty(), KeyRecord { key, first, last })
}

// Kept (DESIGN-PASS 1): the number is what C is told.
fn number_of(answer: Result<Asked, Refusal>) -> u8
    ensures { result ≡ number_of answer }
{
    match answer {
        Ok(_) => 0,
        Err(why) => why.number,
    }
}

// The number that refuses the head. Or 0, and the signing string from the front of the buffer. One key is trusted, from the first to
// the last second, and this URI is asked for.
#[unsafe(no_mangle)]
pub extern "C" fn thawrushes_judge_head(
    text: &[u8],
    key: &[u8],
    first: u64,
    last: u64,
    uri: &[u8],
    question: &mut [u8],
) -> u8
    ensures { made result question.new ≡ answered text.now key.now first last uri.now question.old }
{
    let judged = judging::judge(text, one_key(key, first, last), uri, question);
    number_of(judged)
}
