// The reader for a program in C or another language, with numbers and slices of bytes alone: its state lies in a lent buffer, is read
// from it before each call and written back after it. Any bytes may stand in that buffer: of the three working buffers just the first
// parts are lent on (crate fronts), so that the rest is safe from every state. See include/ouinet_reader.h.
#![tactic(auto)]

ghost use Rattle.std.specs.Prelude.{true, ◌≡◌, ◌≤◌, length};
ghost use Rattle.packing.specs.Parts.{placing};
ghost use Rattle.layout.specs.State.{state_size, decoded};
ghost use Rattle.state.specs.Configuration.{fresh_reader};
ghost use Rattle.results.specs.Written.{made, are_long};
ghost use Rattle.reader_export.specs.Export.{called, begun, begun_in, feed_in, answer_in, end_in, is_yes, block_in, value_in, count_in};

use layout::STATE_SIZE;
use results::{are_long, finish};

// The answer where the buffer of the state or of the result is too short.
const SHORT: u8 = 255;

// A reader before its stream. 0, or 255 where the buffer is too short: it is then left as it is.
pub fn ouinet_reader_fresh(state: &mut [u8]) -> u8
    ensures whole { begun result state.new ≡ begun_in state.old }
    ensures carried { state_size ≤ length state.old → decoded state.new ≡ fresh_reader }
{
    if state.len() < STATE_SIZE {
        return SHORT;
    }
    layout::store(reader::fresh(), state);
    0
}

// A piece of the stream. In this contract and the two after it `whole` says the word and every byte that is lent, and `carried` that
// the state which is then read is the one that the reader's own call gives.
pub fn ouinet_reader_feed(
    state: &mut [u8],
    head: &mut [u8],
    block: &mut [u8],
    question: &mut [u8],
    ring: &[u8],
    uri: &[u8],
    piece: &[u8],
    res: &mut [u8],
) -> u8
    ensures whole { made result state.new head.new block.new question.new res.new ≡ called state.old head.old block.old question.old res.old (feed_in state.old head.old block.old question.old ring.now uri.now piece.now) }
    ensures carried { are_long (length state.old) (length res.old) ≡ true → decoded state.new ≡ (feed_in state.old head.old block.old question.old ring.now uri.now piece.now).after.reader }
{
    if !are_long(state.len(), res.len()) {
        return SHORT;
    }
    let o = fronts::feed(
        layout::load(state),
        head,
        block,
        question,
        packing::keys_in(ring),
        uri,
        piece,
    );
    finish(o, state, res)
}

// Whether the signature that was asked about is good: 0 is no, anything else yes.
pub fn ouinet_reader_answer(
    state: &mut [u8],
    head: &mut [u8],
    block: &mut [u8],
    question: &mut [u8],
    good: u8,
    res: &mut [u8],
) -> u8
    ensures whole { made result state.new head.new block.new question.new res.new ≡ called state.old head.old block.old question.old res.old (answer_in state.old head.old block.old question.old (is_yes good)) }
    ensures carried { are_long (length state.old) (length res.old) ≡ true → decoded state.new ≡ (answer_in state.old head.old block.old question.old (is_yes good)).after.reader }
{
    if !are_long(state.len(), res.len()) {
        return SHORT;
    }
    let o = fronts::answer(layout::load(state), head, block, question, good != 0);
    finish(o, state, res)
}

// The end of the stream.
pub fn ouinet_reader_end(
    state: &mut [u8],
    head: &mut [u8],
    block: &mut [u8],
    question: &mut [u8],
    res: &mut [u8],
) -> u8
    ensures whole { made result state.new head.new block.new question.new res.new ≡ called state.old head.old block.old question.old res.old (end_in state.old head.old block.old question.old) }
    ensures carried { are_long (length state.old) (length res.old) ≡ true → decoded state.new ≡ (end_in state.old head.old block.old question.old).after.reader }
{
    if !are_long(state.len(), res.len()) {
        return SHORT;
    }
    let o = fronts::end(layout::load(state), head, block, question);
    finish(o, state, res)
}

// How many bytes at the front of the block buffer are handed out.
pub fn ouinet_reader_block(state: &[u8], block: &[u8]) -> usize
    ensures { result ≡ length (block_in state.now block.now) }
{
    if state.len() < STATE_SIZE {
        return 0;
    }
    let r = layout::load(state);
    let released = r.released;
    let part = fronts::block_part(block, released);
    part.len()
}

// The length of a signed field's value, which is copied to the front of the buffer where it fits whole.
pub fn ouinet_reader_value(state: &[u8], head: &[u8], name: &[u8], value: &mut [u8]) -> usize
    ensures { placing result value.new ≡ value_in state.now head.now name.now value.old }
{
    if state.len() < STATE_SIZE {
        return 0;
    }
    let r = layout::load(state);
    let fixed = r.fixed;
    let accepted = fixed.accepted;
    let part = fronts::field_part(head, accepted, name);
    packing::place(part, value)
}

// How many lines of the accepted head have that signed field.
pub fn ouinet_reader_value_count(state: &[u8], head: &[u8], name: &[u8]) -> usize
    ensures { result ≡ count_in state.now head.now name.now }
{
    if state.len() < STATE_SIZE {
        return 0;
    }
    let r = layout::load(state);
    let fixed = r.fixed;
    fronts::field_count(head, fixed.accepted, name)
}
