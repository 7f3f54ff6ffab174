// The key ring: a record a line, with a key and the first and the last second at which it is trusted, one space between.
use crate::faults::Fault;
use crate::files;
use limits::RING_LIMIT;
use ring::{KeyRecord, KeyRing};

// So many bytes of the ring's text are read: more than the most records have.
const TEXT_ROOM: u64 = 65536;

const KEY_LENGTH: usize = 44;

const FORM: &str =
    "a record is a key in base64 and its first and last second, one space between; at most 16";

// A second is below 2^64. One of 20 digits is read in two parts.
fn second(text: &[u8]) -> Option<u64> {
    if text.len() != 20 {
        return number::decimal(text, 19).ok();
    }
    let (front, last) = text.split_at(19);
    let tens = number::decimal(front, 19).ok()?;
    let digit = number::decimal(last, 1).ok()?;
    tens.checked_mul(10)?.checked_add(digit)
}

fn record(line: &[u8]) -> Option<KeyRecord> {
    let (key, rest) = line.split_at_checked(KEY_LENGTH)?;
    let seconds = rest.strip_prefix(b" ")?;
    let space = seconds.iter().position(|b| *b == b' ')?;
    Some(KeyRecord {
        key: base64_text::bytes(key)?,
        first: second(&seconds[..space])?,
        last: second(&seconds[space + 1..])?,
    })
}

// The ring, or else the number of the line that is no record, or one too many.
fn ring_of(text: &[u8]) -> Result<KeyRing, u64> {
    let mut ring = ring::empty();
    for (number, line) in (1..).zip(text.split_inclusive(|b| *b == b'\n')) {
        match record(line.strip_suffix(b"\n").unwrap_or(line)) {
            Some(entry) if ring.count < RING_LIMIT => ring = ring::added(ring, entry),
            _ => return Err(number),
        }
    }
    Ok(ring)
}

pub fn load<'a>(rt: &HostRuntime, name: &'a [u8]) -> Result<KeyRing, Fault<'a>> {
    let text = files::load(rt, name, TEXT_ROOM)?;
    ring_of(&text).map_err(|line| Fault::Malformed {
        name,
        line,
        form: FORM,
    })
}
