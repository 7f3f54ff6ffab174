// The bytes of the body that an answer carries, as the reader keeps them.
ghost use Rattle.std.specs.Prelude.{◌≡◌};
ghost use Rattle.stream.specs.Range.{first_byte, is_within};
ghost use Rattle.ranges.specs.Extent.{range_in, ends_within};

use blocks::ByteOffset;

// All of them; or those from the first byte to the last, of so many in all.
#[derive(Clone, Copy)]
pub enum Extent {
    Whole,
    Part {
        first: ByteOffset,
        last: ByteOffset,
        total: u64,
    },
}

// Where they begin.
#[tactic(auto, unfolding(stream::specs::Range::first_byte))]
pub fn first_byte(e: Extent) -> ByteOffset
    ensures { result.0 ≡ first_byte (range_in e) }
{
    match e {
        Extent::Whole => ByteOffset(0),
        Extent::Part { first, .. } => first,
    }
}

// Whether a chunk of n bytes after `so_far` bytes of the body is among them, and whether all of them have come where it has none. The sum is not
// made, nor the number after the last byte's, so that neither can wrap.
#[tactic(auto, unfolding(crate::specs::Extent::ends_within, stream::specs::Range::is_within))]
pub fn is_within(e: Extent, so_far: u64, n: u64) -> bool
    ensures { result ≡ is_within (range_in e) so_far n }
{
    match e {
        Extent::Whole => true,
        Extent::Part { last, .. } => ends_within(last, so_far, n),
    }
}

#[tactic(auto, unfolding(crate::specs::Extent::ends_within))]
fn ends_within(last: ByteOffset, so_far: u64, n: u64) -> bool
    ensures { result ≡ ends_within last.0 so_far n }
{
    let end = last.0;
    if n == 0 {
        if so_far == 0 {
            return false;
        }
        return so_far - 1 == end;
    }
    if end < so_far {
        return false;
    }
    n - 1 <= end - so_far
}
