// The calls of reader_export as C symbols: a crate is a library or a static library, so each is stated once more and calls the library's.
// See include/ouinet_reader.h.
#![tactic(auto)]

ghost use Rattle.std.specs.Prelude.{true, ◌≡◌, ◌≤◌, length};
ghost use Rattle.packing.specs.Parts.{placing};
ghost use Rattle.layout.specs.State.{state_size, decoded};
ghost use Rattle.state.specs.Configuration.{fresh_reader};
ghost use Rattle.results.specs.Written.{made, are_long};
ghost use Rattle.reader_export.specs.Export.{called, begun, begun_in, feed_in, answer_in, end_in, is_yes, block_in, value_in, count_in};

// A reader before its stream. 0, or 255 where the buffer is too short: it is then left as it is.
#[unsafe(no_mangle)]
pub extern "C" fn ouinet_reader_fresh(state: &mut [u8]) -> u8
    ensures whole { begun result state.new ≡ begun_in state.old }
    ensures carried { state_size ≤ length state.old → decoded state.new ≡ fresh_reader }
{
    reader_export::ouinet_reader_fresh(state)
}

// A piece of the stream. In this contract and the two after it `whole` says the word and every byte that is lent, and `carried` that
// the state which is then read is the one that the reader's own call gives.
#[unsafe(no_mangle)]
pub extern "C" fn ouinet_reader_feed(
    state: &mut [u8],
    head: &mut [u8],
    block: &mut [u8],
    question: &mut [u8],
    ring: &[u8],
    uri: &[u8],
    piece: &[u8],
    res: &mut [u8],
) -> u8
    ensures whole { made result state.new head.new block.new question.new res.new ≡ called state.old head.old block.old question.old res.old (feed_in state.old head.old block.old question.old ring.now uri.now piece.now) }
    ensures carried { are_long (length state.old) (length res.old) ≡ true → decoded state.new ≡ (feed_in state.old head.old block.old question.old ring.now uri.now piece.now).after.reader }
{
    reader_export::ouinet_reader_feed(state, head, block, question, ring, uri, piece, res)
}

// Whether the signature that was asked about is good: 0 is no, anything else yes.
#[unsafe(no_mangle)]
pub extern "C" fn ouinet_reader_answer(
    state: &mut [u8],
    head: &mut [u8],
    block: &mut [u8],
    question: &mut [u8],
    good: u8,
    res: &mut [u8],
) -> u8
    ensures whole { made result state.new head.new block.new question.new res.new ≡ called state.old head.old block.old question.old res.old (answer_in state.old head.old block.old question.old (is_yes good)) }
    ensures carried { are_long (length state.old) (length res.old) ≡ true → decoded state.new ≡ (answer_in state.old head.old block.old question.old (is_yes good)).after.reader }
{
    reader_export::ouinet_reader_answer(state, head, block, question, good, res)
}

// The end of the stream.
#[unsafe(no_mangle)]
pub extern "C" fn ouinet_reader_end(
    state: &mut [u8],
    head: &mut [u8],
    block: &mut [u8],
    question: &mut [u8],
    res: &mut [u8],
) -> u8
    ensures whole { made result state.new head.new block.new question.new res.new ≡ called state.old head.old block.old question.old res.old (end_in state.old head.old block.old question.old) }
    ensures carried { are_long (length state.old) (length res.old) ≡ true → decoded state.new ≡ (end_in state.old head.old block.old question.old).after.reader }
{
    reader_export::ouinet_reader_end(state, head, block, question, res)
}

// How many bytes at the front of the block buffer are handed out.
#[unsafe(no_mangle)]
pub extern "C" fn ouinet_reader_block(state: &[u8], block: &[u8]) -> usize
    ensures { result ≡ length (block_in state.now block.now) }
{
    reader_export::ouinet_reader_block(state, block)
}

// The length of a signed field's value, which is copied to the front of the buffer where it fits whole.
#[unsafe(no_mangle)]
pub extern "C" fn ouinet_reader_value(
    state: &[u8],
    head: &[u8],
    name: &[u8],
    value: &mut [u8],
) -> usize
    ensures { placing result value.new ≡ value_in state.now head.now name.now value.old }
{
    reader_export::ouinet_reader_value(state, head, name, value)
}

// How many lines of the accepted head have that signed field.
#[unsafe(no_mangle)]
pub extern "C" fn ouinet_reader_value_count(state: &[u8], head: &[u8], name: &[u8]) -> usize
    ensures { result ≡ count_in state.now head.now name.now }
{
    reader_export::ouinet_reader_value_count(state, head, name)
}
