// The chunk line after a block: it carries the block's signature, and a good one leads to the question about the block.
ghost use Rattle.std.specs.Prelude.{List, ◌≡◌, ℕ, ◌≤◌, take};
ghost use Rattle.state.specs.Configuration.{configuration, next_of};
ghost use Rattle.line_steps.specs.NextLine.{body_with, released_with, next_judged, asked, next_answered, next_gathered, push_next_line};

use crate::first_line::{is_whole_line, too_long};
use chunk::Line;
use limits::LINE_LIMIT;
use refusals::Refusal;
use state::{Phase, Reader, Stepped, Word, refused, said, with_hash, with_line};

// How many bytes the body has with the block under way, of `size` bytes.
#[tactic(auto, unfolding(crate::specs::NextLine::body_with))]
pub fn body_with(r: Reader, size: usize) -> u64
    ensures { result ≡ body_with r size }
{
    let offset = blocks::offset_of(r.chain.number, r.fixed.block_size as u64);
    offset.0.saturating_add(size as u64)
}

// How many of these the answer carries; in a state that no stream leads to, with none up to where it begins, 0.
#[tactic(auto, unfolding(crate::specs::NextLine::released_with))]
pub fn released_with(r: Reader, size: usize) -> u64
    ensures { result ≡ released_with r size }
{
    let first = ranges::first_byte(r.fixed.extent);
    body_with(r, size).saturating_sub(first.0)
}

#[tactic(auto, unfolding(crate::specs::NextLine::next_judged))]
fn judge_line(r: Reader, n: usize, size: usize) -> Result<Line, Refusal>
    requires { n ≤ 128 }
    ensures { result ≡ next_judged r size (take n r.line) }
{
    let block_size = r.fixed.block_size;
    chunk::judge(
        &r.line[..n],
        block_size,
        r.fixed.extent,
        true,
        size == block_size,
        body_with(r, size),
    )
}

// The question about the block under way, the first `size` bytes of the block buffer.
#[tactic(auto, using(state::proofs::BufferLaws::take_min), unfolding(crate::specs::NextLine::asked, crate::specs::NextLine::message_now))]
fn ask(
    r: Reader,
    block: &[u8],
    question: &mut [u8],
    size: usize,
    next: usize,
    signature: [u8; 64],
) -> Stepped
    ensures { (h : List ℕ) → next_of result h block.now question.new ≡ asked (configuration r h block.now question.old) size next signature }
{
    let number = r.chain.number;
    let bytes = &block[..size.min(block.len())];
    let hash = blocks::chain(number, r.chain.hash, bytes);
    let body = sha256::add(r.chain.body, bytes);
    let offset = blocks::offset_of(number, r.fixed.block_size as u64);
    let length = blocks::message(question, r.fixed.id, r.fixed.id_length, offset, hash);
    Stepped {
        word: Word::Question {
            length,
            key: r.fixed.key,
        },
        signature,
        reader: with_hash(r, Phase::BlockAsked { size, next }, hash, body),
    }
}

#[tactic(auto, unfolding(crate::specs::NextLine::next_answered))]
fn answer_next(
    r: Reader,
    block: &mut [u8],
    question: &mut [u8],
    size: usize,
    judged: Result<Line, Refusal>,
) -> Stepped
    ensures { (h : List ℕ) → next_of result h block.new question.new ≡ next_answered (configuration r h block.old question.old) size judged }
{
    match judged {
        Err(why) => refused(r, block, size, why),
        Ok(line) => ask(r, block, question, size, line.size as usize, line.carried),
    }
}

// With its newest byte, the line is the first n bytes of the state's.
#[tactic(auto, unfolding(crate::specs::NextLine::next_gathered))]
fn judge_next(r: Reader, block: &mut [u8], question: &mut [u8], n: usize, size: usize) -> Stepped
    requires { n ≤ 128 }
    ensures { (h : List ℕ) → next_of result h block.new question.new ≡ next_gathered (configuration r h block.old question.old) n size }
{
    if !is_whole_line(&r.line[..n]) {
        return said(Word::More, r);
    }
    answer_next(r, block, question, size, judge_line(r, n, size))
}

// A byte of the line after a block of `size` bytes, of which `have` bytes have come.
#[tactic(auto, unfolding(crate::specs::NextLine::push_next_line))]
pub fn push_next_line(
    r: Reader,
    block: &mut [u8],
    question: &mut [u8],
    have: usize,
    size: usize,
    x: u8,
) -> Stepped
    ensures { (h : List ℕ) → next_of result h block.new question.new ≡ push_next_line (configuration r h block.old question.old) have size x }
{
    if LINE_LIMIT <= have {
        let why = too_long();
        return refused(r, block, size, why);
    }
    let mut line = r.line;
    line[have] = x;
    let next = have + 1;
    judge_next(
        with_line(r, Phase::NextLine { have: next, size }, line),
        block,
        question,
        next,
        size,
    )
}
