// The state after a call and its result.
ghost use Rattle.std.specs.Prelude.{List, ◌≡◌, ℕ, ◌≤◌, length};
ghost use Rattle.layout.specs.State.{state_size, decoded};
ghost use Rattle.calls.specs.Response.{made as call_of};
ghost use Rattle.results.specs.Written.{made, are_long, answered};

use crate::telling::{RESULT_SIZE, tell};
use calls::Outcome;
use layout::STATE_SIZE;

// Whether a state and a result fit buffers of these lengths.
#[tactic(auto, unfolding(crate::specs::Written::are_long))]
pub fn are_long(state: usize, res: usize) -> bool
    ensures { result ≡ are_long state res }
{
    (STATE_SIZE <= state) & (RESULT_SIZE <= res)
}

// Writes the state after the call and its result, and gives the word's number. The three other buffers are as the call left them.
pub fn finish(o: Outcome, state: &mut [u8], res: &mut [u8]) -> u8
    ensures whole { (h b q : List ℕ) → made result state.new h b q res.new ≡ answered state.old res.old (call_of o h b q) }
    ensures back { state_size ≤ length state.old → decoded state.new ≡ o.reader }
{
    layout::store(o.reader, state);
    tell(o.word, o.taken, o.signature, res)
}
