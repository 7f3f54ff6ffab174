// The reader's calls on buffers of any lengths: of each they lend on just the first part, as many bytes as the reader is to have, so
// that whatever the state says no byte beyond is read or written.
#![tactic(auto)]

ghost use Rattle.std.specs.Prelude.{◌≡◌, take};
ghost use Rattle.stream.specs.Limits.{head_limit, block_limit};
ghost use Rattle.handing.specs.Handing.{handed_count, handed_value};
ghost use Rattle.handing.specs.Released.{block_part};
ghost use Rattle.state.specs.Configuration.{configuration};
ghost use Rattle.calls.specs.Response.{made};
ghost use Rattle.fronts.specs.Fronts.{feed_front, answer_front, end_front};

use calls::Outcome;
use limits::{BLOCK_LIMIT, HEAD_LIMIT};
use ring::KeyRing;
use state::Reader;

// A piece of the stream.
pub fn feed(
    r: Reader,
    head: &mut [u8],
    block: &mut [u8],
    question: &mut [u8],
    ring: KeyRing,
    uri: &[u8],
    piece: &[u8],
) -> Outcome
    ensures { made result head.new block.new question.new ≡ feed_front ring uri.now (configuration r head.old block.old question.old) piece.now }
{
    let h = HEAD_LIMIT.min(head.len());
    let b = BLOCK_LIMIT.min(block.len());
    let q = HEAD_LIMIT.min(question.len());
    reader::feed(
        r,
        &mut head[..h],
        &mut block[..b],
        &mut question[..q],
        ring,
        uri,
        piece,
    )
}

// Whether the signature that was asked about is good.
pub fn answer(
    r: Reader,
    head: &mut [u8],
    block: &mut [u8],
    question: &mut [u8],
    good: bool,
) -> Outcome
    ensures { made result head.new block.new question.new ≡ answer_front (configuration r head.old block.old question.old) good }
{
    let h = HEAD_LIMIT.min(head.len());
    let b = BLOCK_LIMIT.min(block.len());
    let q = HEAD_LIMIT.min(question.len());
    reader::answer(r, &mut head[..h], &mut block[..b], &mut question[..q], good)
}

// The end of the stream.
pub fn end(r: Reader, head: &mut [u8], block: &mut [u8], question: &mut [u8]) -> Outcome
    ensures { made result head.new block.new question.new ≡ end_front (configuration r head.old block.old question.old) }
{
    let h = HEAD_LIMIT.min(head.len());
    let b = BLOCK_LIMIT.min(block.len());
    let q = HEAD_LIMIT.min(question.len());
    reader::end(r, &mut head[..h], &mut block[..b], &mut question[..q])
}

// The released block.
pub fn block_part(block: &[u8], released: usize) -> &[u8]
    ensures { result.now ≡ block_part (take block_limit block.now) released }
{
    let n = BLOCK_LIMIT.min(block.len());
    reader::block_part(&block[..n], released)
}

// The value of a signed field.
pub fn field_part<'a>(head: &'a [u8], accepted: usize, name: &[u8]) -> &'a [u8]
    ensures { result.now ≡ handed_value (take head_limit head.now) accepted name.now }
{
    let n = HEAD_LIMIT.min(head.len());
    reader::field_part(&head[..n], accepted, name)
}

// How many lines there are of a signed field.
pub fn field_count(head: &[u8], accepted: usize, name: &[u8]) -> usize
    ensures { result ≡ handed_count (take head_limit head.now) accepted name.now }
{
    let n = HEAD_LIMIT.min(head.len());
    reader::field_count(&head[..n], accepted, name)
}
