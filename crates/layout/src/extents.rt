// An extent as four numbers: what it is, and the three that a part carries, 0 where it is the whole.
ghost use Rattle.std.specs.Prelude.{[], ◌∷◌, ◌≡◌};
ghost use Rattle.layout.specs.State.{kind_of, first_byte_of, last_byte_of, total_of, InExtent, extent_from};

use blocks::ByteOffset;
use ranges::Extent;

// The kind, the first byte, the last and how many there are in all. That each is a number of 64 bits is said beside.
pub(crate) fn numbers(e: Extent) -> [u64; 4]
    ensures { (result ≡ kind_of e ∷ first_byte_of e ∷ last_byte_of e ∷ total_of e ∷ []) × InExtent e }
{
    match e {
        Extent::Whole => [0; 4],
        Extent::Part { first, last, total } => [1, first.0, last.0, total],
    }
}

// The extent of four numbers. A kind that is no part's is the whole.
// Kept (DESIGN-PASS 1): the number is one of the bytes that C lends, any of which may be another.
#[tactic(auto, unfolding(crate::specs::State::extent_from))]
pub(crate) fn extent(kind: u64, first: u64, last: u64, total: u64) -> Extent
    ensures { result ≡ extent_from kind first last total }
{
    match kind {
        1 => Extent::Part {
            first: ByteOffset(first),
            last: ByteOffset(last),
            total,
        },
        _ => Extent::Whole,
    }
}
