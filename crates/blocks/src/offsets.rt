// Where a block stands. Blocks are counted in one type and bytes in another, so that neither can be taken for the other.
ghost use Rattle.std.specs.Prelude.{◌≡◌, ◌/◌};
ghost use Rattle.blocks.specs.Place.{offset_at};

// A place in the body, in bytes.
#[derive(Clone, Copy)]
pub struct ByteOffset(pub u64);

// The number of a block, counted from 0.
#[derive(Clone, Copy)]
pub struct BlockNumber(pub u64);

// Where block i starts among blocks of `size` bytes; a place past the largest number is that number.
#[tactic(auto, unfolding(crate::specs::Place::offset_at))]
pub fn offset_of(i: BlockNumber, size: u64) -> ByteOffset
    ensures { result ≡ offset_at i size }
{
    ByteOffset(i.0.saturating_mul(size))
}

// The number of the block that has the byte at a place, among blocks of `size` bytes; 0 where they have none.
pub fn block_at(place: ByteOffset, size: u64) -> BlockNumber
    ensures { result ≡ record { 0 = place.0 / size } }
{
    BlockNumber(place.0.checked_div(size).unwrap_or(0))
}
