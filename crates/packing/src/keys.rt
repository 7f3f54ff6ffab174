// A key ring: its records one after the other, 48 bytes each.
ghost use Rattle.std.specs.Prelude.{◌≡◌, ◌<◌};
ghost use Rattle.packing.specs.Keys.{count_of, record_at, keys_in};

use crate::parts::{bytes, number_at};
use limits::RING_LIMIT;
use ring::{KeyRecord, KeyRing};

const RECORD_SIZE: usize = 48;

// How many records so many bytes have. No whole number of them is one more than a ring may have, so that it is refused.
#[tactic(auto, unfolding(crate::specs::Keys::count_of))]
fn count_of(n: usize) -> usize
    ensures { result ≡ count_of n }
{
    if n % RECORD_SIZE == 0 {
        return n / RECORD_SIZE;
    }
    RING_LIMIT + 1
}

#[tactic(auto, unfolding(crate::specs::Keys::record_at))]
fn record_at(ring: &[u8], i: usize) -> KeyRecord
    requires { i < 16 }
    ensures { result ≡ record_at ring.now i }
{
    let at = RECORD_SIZE * i;
    KeyRecord {
        key: bytes(ring, at),
        first: number_at(ring, at + 32),
        last: number_at(ring, at + 40),
    }
}

// The ring that the bytes write: bytes that are missing count as 0, as the room past the records.
pub fn keys_in(ring: &[u8]) -> KeyRing
    ensures { result ≡ keys_in ring.now }
{
    let mut records = ring::empty().records;
    for (i, entry) in records.iter_mut().enumerate() {
        *entry = record_at(ring, i);
    }
    KeyRing {
        count: count_of(ring.len()),
        records,
    }
}
