// An answer to an open question: whether the signature is good.
ghost use Rattle.std.specs.Prelude.{List, ◌≡◌, ℕ};
ghost use Rattle.state.specs.Configuration.{configuration};
ghost use Rattle.calls.specs.Response.{made};
ghost use Rattle.calls.specs.Answer.{accepting, following as followingOf, releasing, head_answer, block_answer, end_answer, answer_of};

use crate::outcome::{Outcome, are_roomy, ended, told, unchanged};
use blocks::BlockNumber;
use limits::BLOCK_LIMIT;
use state::{Chain, Fixed, Phase, Reader, Word};

// The reader once its head of n bytes is accepted: the first chunk line follows.
fn accepted(r: Reader, n: usize) -> Reader
    ensures { result ≡ accepting r n }
{
    let fixed = Fixed {
        accepted: n,
        ..r.fixed
    };
    Reader {
        phase: Phase::FirstLine(0),
        fixed,
        ..r
    }
}

// The number of the block after.
#[tactic(auto, unfolding(crate::specs::Answer::following))]
fn following(i: BlockNumber) -> BlockNumber
    ensures { result ≡ followingOf i }
{
    BlockNumber(i.0.saturating_add(1))
}

// The reader once its block of `size` bytes is released: what the line has announced follows.
#[tactic(auto, unfolding(crate::specs::Answer::releasing))]
fn released(r: Reader, size: usize, next: usize) -> Reader
    ensures { result ≡ releasing r size next }
{
    let number = following(r.chain.number);
    let chain = Chain { number, ..r.chain };
    let phase = line_steps::announced(next, line_steps::released_with(r, size));
    Reader {
        phase,
        chain,
        released: size,
        ..r
    }
}

// The answer about the head of n bytes. Nothing is pending, so that a refusal clears nothing.
#[tactic(auto, unfolding(crate::specs::Answer::head_answer))]
fn answer_head(r: Reader, n: usize, good: bool) -> Outcome
    ensures { (h b q : List ℕ) → made result h b q ≡ head_answer n (configuration r h b q) good }
{
    if !good {
        let why = refusals::plain(10);
        return told(
            Word::Refused(why),
            0,
            state::in_phase(r, Phase::Refused(10)),
        );
    }
    told(Word::Head(r.fixed.status), 0, accepted(r, n))
}

// The answer about the block of `size` bytes, after whose line `next` bytes follow. Only a state that no stream leads to has a
// larger size than a block may have: it is clipped, so that no length past the room for a block is told or handed out.
#[tactic(auto, using(crate::proofs::CallLaws::refused_call), unfolding(crate::specs::Answer::block_answer))]
fn answer_block(r: Reader, block: &mut [u8], size: usize, next: usize, good: bool) -> Outcome
    ensures { (h q : List ℕ) → made result h block.new q ≡ block_answer size next (configuration r h block.old q) good }
{
    if !good {
        let why = refusals::plain(10);
        let s = state::refused(r, block, size, why);
        return ended(s, 0);
    }
    let length = size.min(BLOCK_LIMIT);
    let offset = blocks::offset_of(r.chain.number, r.fixed.block_size as u64);
    told(Word::Block { offset, length }, 0, released(r, length, next))
}

// The answer about the end of the show, whose trailer of `have` bytes is pending.
#[tactic(auto, using(crate::proofs::CallLaws::refused_call), unfolding(crate::specs::Answer::end_answer))]
fn answer_end(r: Reader, block: &mut [u8], have: usize, total: u64, good: bool) -> Outcome
    ensures { (h q : List ℕ) → made result h block.new q ≡ end_answer have total (configuration r h block.old q) good }
{
    if !good {
        let why = refusals::plain(10);
        let s = state::refused(r, block, have, why);
        return ended(s, 0);
    }
    told(
        Word::Complete(total),
        0,
        state::in_phase(r, Phase::Complete(total)),
    )
}

// Whether the signature that was asked about is good.
#[tactic(auto, unfolding(crate::specs::Answer::answer_of))]
pub fn answer(
    r: Reader,
    head: &mut [u8],
    block: &mut [u8],
    question: &mut [u8],
    good: bool,
) -> Outcome
    ensures { made result head.new block.new question.new ≡ answer_of (configuration r head.old block.old question.old) good }
{
    if !are_roomy(head.len(), block.len(), question.len()) {
        return unchanged(r, 2);
    }
    match r.phase {
        Phase::HeadAsked(n) => answer_head(r, n, good),
        Phase::BlockAsked { size, next } => answer_block(r, block, size, next, good),
        Phase::EndAsked { have, total } => answer_end(r, block, have, total, good),
        _ => unchanged(r, 1),
    }
}
