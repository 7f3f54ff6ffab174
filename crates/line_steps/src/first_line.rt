// The chunk lines, gathered in the state: the first one, and what all lines share.
ghost use Rattle.std.specs.Prelude.{List, ◌≡◌, ℕ, ◌≤◌};
ghost use Rattle.stream.specs.Blocks.{is_whole_line};
ghost use Rattle.state.specs.Configuration.{configuration, next_of};
ghost use Rattle.line_steps.specs.FirstLine.{announced as announcedPhase, first_answered, first_gathered, push_first_line, starting, too_long};

use chunk::Line;
use limits::LINE_LIMIT;
use refusals::Refusal;
use state::{Chain, Phase, Reader, Stepped, Word, in_phase, said, with_chain, with_line};

// The refusal of a line that has no end within the limit.
pub(crate) fn too_long() -> Refusal
    ensures { result ≡ too_long }
{
    Refusal {
        number: 6,
        at: LINE_LIMIT,
    }
}

#[tactic(auto, unfolding(stream::specs::Blocks::is_whole_line))]
pub(crate) fn is_whole_line(line: &[u8]) -> bool
    ensures { result ≡ is_whole_line line.now }
{
    text::ends_line(line) | (LINE_LIMIT <= line.len())
}

// Where a line leads that announces `size` bytes after a body of `total` bytes: to a block's data, or to the trailer.
pub fn announced(size: usize, total: u64) -> Phase
    ensures { result ≡ announcedPhase size total }
{
    if size == 0 {
        return Phase::Trailer { have: 0, total };
    }
    Phase::Data { have: 0, size }
}

// The chain before the first block: from nothing, or, in the middle of a show, from the hash that the first line carries.
fn started(r: Reader, hash: [u8; 64]) -> Chain
    ensures { result ≡ starting r hash }
{
    let first = ranges::first_byte(r.fixed.extent);
    if first.0 == 0 {
        return r.chain;
    }
    let number = blocks::block_at(first, r.fixed.block_size as u64);
    Chain {
        number,
        hash,
        ..r.chain
    }
}

// Before the first block nothing is pending, so that a refusal clears nothing.
#[tactic(auto, using(state::proofs::BufferLaws::cleared_none), unfolding(crate::specs::FirstLine::first_answered, state::specs::Configuration::refuse))]
fn answer_first(r: Reader, judged: Result<Line, Refusal>) -> Stepped
    ensures { (h b q : List ℕ) → next_of result h b q ≡ first_answered (configuration r h b q) judged }
{
    match judged {
        Err(why) => said(Word::Refused(why), in_phase(r, Phase::Refused(why.number))),
        Ok(line) => said(
            Word::More,
            with_chain(
                r,
                announced(line.size as usize, 0),
                started(r, line.carried),
            ),
        ),
    }
}

// With its newest byte, the line is the first n bytes of the state's.
#[tactic(auto, unfolding(crate::specs::FirstLine::first_gathered, crate::specs::FirstLine::first_judged))]
fn judge_first(r: Reader, n: usize) -> Stepped
    requires { n ≤ 128 }
    ensures { (h b q : List ℕ) → next_of result h b q ≡ first_gathered (configuration r h b q) n }
{
    let line = &r.line[..n];
    if !is_whole_line(line) {
        return said(Word::More, r);
    }
    let extent = r.fixed.extent;
    let first = ranges::first_byte(extent);
    let judged = chunk::judge(line, r.fixed.block_size, extent, false, true, first.0);
    answer_first(r, judged)
}

// A byte of the first chunk line, of which `have` bytes have come.
#[tactic(auto, using(state::proofs::BufferLaws::cleared_none), unfolding(crate::specs::FirstLine::push_first_line, state::specs::Configuration::refuse))]
pub fn push_first_line(r: Reader, have: usize, x: u8) -> Stepped
    ensures { (h b q : List ℕ) → next_of result h b q ≡ push_first_line (configuration r h b q) have x }
{
    if LINE_LIMIT <= have {
        let why = too_long();
        return said(Word::Refused(why), in_phase(r, Phase::Refused(6)));
    }
    let mut line = r.line;
    line[have] = x;
    let next = have + 1;
    judge_first(with_line(r, Phase::FirstLine(next), line), next)
}
