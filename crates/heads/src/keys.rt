// The ring that all heads are judged with: one key with two spans, then another key that is trusted at every time that can be written.
use ring::{KeyRecord, KeyRing};

fn trusted(text: &[u8], first: u64, last: u64) -> KeyRecord {
    let key = base64_text::bytes(text).unwrap_or([0; 32]);
    KeyRecord { key, first, last }
}

pub fn three() -> KeyRing {
    let first = b"yMnKy8zNzs/Q0dLT1NXW19jZ2tvc3d7f4OHi4+Tl5uc=";
    let other = b"AwoRGB8mLTQ7QklQV15lbHN6gYiPlp2kq7K5wMfO1dw=";
    let records = [
        trusted(first, 1000000000, 1500000000),
        trusted(first, 1584748000, 1584748999),
        trusted(other, 0, 999999999999),
    ];
    records.into_iter().fold(ring::empty(), ring::added)
}
