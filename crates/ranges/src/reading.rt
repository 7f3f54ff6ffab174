// What the value of `Content-Range` says: `bytes a-b/t`, where blocks have `size` bytes.
ghost use Rattle.std.specs.Prelude.{◌≡◌};
ghost use Rattle.stream.specs.Range.{is_aligned, part, range_scan};
ghost use Rattle.ranges.specs.Reading.{range_read};

use crate::extent::Extent;
use crate::numbers;
use blocks::ByteOffset;

// The part that the value says, if it is good.
pub fn read(value: &[u8], size: usize) -> Option<Extent>
    ensures { result ≡ range_read size (range_scan value.now) }
{
    let first = numbers::number_after(value, 0, b"bytes ")?;
    let last = numbers::number_after(value, first.next, b"-")?;
    let total = numbers::number_after(value, last.next, b"/")?;
    if total.next < value.len() {
        return None;
    }
    if !is_aligned(size as u64, first.number, last.number, total.number) {
        return None;
    }
    Some(Extent::Part {
        first: ByteOffset(first.number),
        last: ByteOffset(last.number),
        total: total.number,
    })
}

// Whether a part from byte `first` to byte `last` of so many is made of whole blocks, but for the body's last one.
#[tactic(auto, unfolding(stream::specs::Range::is_aligned))]
fn is_aligned(size: u64, first: u64, last: u64, total: u64) -> bool
    ensures { result ≡ is_aligned size (part first last total) }
{
    if last < first {
        return false;
    }
    if total <= last {
        return false;
    }
    if limits::BODY_LIMIT < total {
        return false;
    }
    let end = last + 1;
    first.is_multiple_of(size) & ((end == total) | end.is_multiple_of(size))
}
