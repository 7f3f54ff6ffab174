// The key ring by value: made record by record, and searched for a key that is trusted at a time.
#![tactic(auto)]

ghost use Rattle.std.specs.Prelude.{◌≡◌, [], position};
ghost use Rattle.stream.specs.Ring.{found, fits as fits_of};
ghost use Rattle.ring.specs.Keys.{trusted_of, ring_of, found_of, ring_with, keys_with, no_keys};

use limits::RING_LIMIT;

// A key, and the first and the last second at which it is trusted.
#[derive(Clone, Copy)]
pub struct KeyRecord {
    pub key: [u8; 32],
    pub first: u64,
    pub last: u64,
}

// The first `count` records are the ring's, all of them where the count is higher; the others say nothing.
// Kept (DESIGN-PASS 6): the reader has no heap, and C lends a ring as its records, of which there are 16 at most.
#[derive(Clone, Copy)]
pub struct KeyRing {
    pub count: usize,
    pub records: [KeyRecord; RING_LIMIT],
}

// No record. In this contract and the next, `whole` says every byte of the result and `ring` what it stands for.
#[tactic(auto, unfolding(crate::specs::Keys::no_keys, crate::specs::Keys::ring_of))]
pub fn empty() -> KeyRing
    ensures whole { result ≡ no_keys }
    ensures ring { ring_of result ≡ [] }
{
    let none = KeyRecord {
        key: [0; 32],
        first: 0,
        last: 0,
    };
    KeyRing {
        count: 0,
        records: [none; RING_LIMIT],
    }
}

// One record more, after the others. A full ring stays as it is, and so does one whose count is forged.
pub fn added(ring: KeyRing, entry: KeyRecord) -> KeyRing
    ensures whole { result ≡ keys_with ring entry }
    ensures ring { ring_of result ≡ ring_with (ring_of ring) (trusted_of entry) }
{
    let count = ring.count;
    if RING_LIMIT <= count {
        return ring;
    }
    let mut records = ring.records;
    records[count] = entry;
    KeyRing {
        count: count + 1,
        records,
    }
}

// The first record that has the key and is trusted at the time, by its number from 0.
pub fn find(ring: KeyRing, key: [u8; 32], time: u64) -> Option<usize>
    ensures { found_of result ≡ found key time (ring_of ring) }
{
    first_fit(&ring.records[..ring.count.min(RING_LIMIT)], key, time)
}

fn first_fit(records: &[KeyRecord], key: [u8; 32], time: u64) -> Option<usize>
    ensures { result ≡ position (λ k. fits_of key time (trusted_of k)) records.now }
{
    records.iter().position(|entry| fits(*entry, key, time))
}

// The record has the key, and the time is within its span: the first and the last second are.
#[tactic(auto, using(crate::proofs::SearchLaws::same_is), unfolding(stream::specs::Ring::fits))]
fn fits(entry: KeyRecord, key: [u8; 32], time: u64) -> bool
    ensures { result ≡ fits_of key time (trusted_of entry) }
{
    (key == entry.key) & ((entry.first <= time) & (time <= entry.last))
}
