// The hash chain: each block's hash takes in the hash of the block before it.
ghost use Rattle.std.specs.Prelude.{[], ◌≡◌, eqb};
ghost use Rattle.octets.specs.Choice.{pick};
ghost use Rattle.stream.specs.Blocks.{chained};

use crate::offsets::BlockNumber;

// The hash of a block, by its number and the hash of the block before it. Nothing stands before block 0.
#[tactic(auto, unfolding(stream::specs::Blocks::chained))]
pub fn chain(number: BlockNumber, before: [u8; 64], block: &[u8]) -> [u8; 64]
    ensures { result ≡ chained (pick (eqb number.0 0) [] before) block.now }
{
    if number.0 == 0 {
        return hash::sha512(block);
    }
    hash::sha512_after(before, block)
}
