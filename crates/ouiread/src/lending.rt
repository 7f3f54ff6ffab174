// The ring's records, lent to the reader.
ghost use Rattle.std.specs.Prelude.{◌≡◌, min, take};
ghost use Rattle.state.specs.Configuration.{configuration};
ghost use Rattle.stream.specs.Limits.{ring_limit};
ghost use Rattle.calls.specs.Response.{made};
ghost use Rattle.lent.specs.Table.{lent_feed_of};

use limits::RING_LIMIT;
use reader::Outcome;
use ring::KeyRecord;
use state::Reader;

// A feed with the first `count` of the records as a lent table: a count is never over the room. It is lent here alone: all above has the ring by
// value.
// Kept (DESIGN-PASS 6): the ring as the reader takes it; the claims name this contract.
pub fn feed(
    r: Reader,
    head: &mut [u8],
    block: &mut [u8],
    question: &mut [u8],
    records: [KeyRecord; RING_LIMIT],
    count: usize,
    uri: &[u8],
    piece: &[u8],
) -> Outcome
    ensures { made result head.new block.new question.new ≡ lent_feed_of (take (min count ring_limit) records) uri.now (configuration r head.old block.old question.old) piece.now }
{
    let lent = &records[..count.min(RING_LIMIT)];
    lent::feed(r, head, block, question, lent, uri, piece)
}
