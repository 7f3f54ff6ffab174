// The key ring as a lent table. Whoever has the records in a slice of any length feeds through here: the slice is taken apart, and
// the reader gets its ring by value.
#![tactic(auto)]

ghost use Rattle.std.specs.Prelude.{[], ◌≡◌};
ghost use Rattle.state.specs.Configuration.{configuration};
ghost use Rattle.calls.specs.Response.{made};
ghost use Rattle.lent.specs.Table.{looked, with_next, keys_of, lent_feed_of};

use limits::RING_LIMIT;
use reader::Outcome;
use ring::{KeyRecord, KeyRing};
use state::Reader;

// A ring of no records.
fn no_records() -> KeyRing
    ensures { result ≡ keys_of [] }
{
    ring::empty()
}

// How many of the records are looked at: all that a ring may have, and one more that tells that there are too many.
fn looked_at(count: usize) -> usize
    ensures { result ≡ looked count }
{
    count.min(RING_LIMIT + 1)
}

// The ring with one record more, or with a count over its limit where there is no room for it.
#[tactic(auto, unfolding(crate::specs::Table::with_next))]
fn with_next(ring: KeyRing, entry: KeyRecord) -> KeyRing
    ensures { result ≡ with_next ring entry }
{
    if ring.count < RING_LIMIT {
        return ring::added(ring, entry);
    }
    KeyRing {
        count: RING_LIMIT + 1,
        ..ring
    }
}

// The ring of the lent records.
fn ring_of(records: &[KeyRecord]) -> KeyRing
    ensures { result ≡ keys_of records.now }
{
    let mut ring = no_records();
    let looked = &records[..looked_at(records.len())];
    for entry in looked {
        ring = with_next(ring, *entry);
    }
    ring
}

// Takes a piece of the stream, up to the byte that leads to an event. Over 16 records are refused with 2.
pub fn feed(
    r: Reader,
    head: &mut [u8],
    block: &mut [u8],
    question: &mut [u8],
    records: &[KeyRecord],
    uri: &[u8],
    piece: &[u8],
) -> Outcome
    ensures { made result head.new block.new question.new ≡ lent_feed_of records.now uri.now (configuration r head.old block.old question.old) piece.now }
{
    reader::feed(r, head, block, question, ring_of(records), uri, piece)
}
