// The end of the stream.
ghost use Rattle.std.specs.Prelude.{◌≡◌};
ghost use Rattle.state.specs.Configuration.{configuration};
ghost use Rattle.calls.specs.Response.{made};
ghost use Rattle.calls.specs.Answer.{end_of};

use crate::outcome::{Outcome, are_roomy, ended, is_reading, recalled, unchanged};
use state::Reader;

// No bytes will follow: a stream that is not finished is refused, and what is pending in the block buffer is set to zero.
#[tactic(auto, using(crate::proofs::CallLaws::refused_call), unfolding(crate::specs::Answer::end_of))]
pub fn end(r: Reader, head: &mut [u8], block: &mut [u8], question: &mut [u8]) -> Outcome
    ensures { made result head.new block.new question.new ≡ end_of (configuration r head.old block.old question.old) }
{
    if !are_roomy(head.len(), block.len(), question.len()) {
        return unchanged(r, 2);
    }
    if !is_reading(r.phase) {
        return unchanged(r, 1);
    }
    let count = state::pending(r.phase);
    let why = refusals::plain(11);
    let s = state::refused(recalled(r), block, count, why);
    ended(s, 0)
}
