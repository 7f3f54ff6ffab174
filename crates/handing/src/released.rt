// The released block, as it is handed out.
ghost use Rattle.std.specs.Prelude.{◌≡◌};
ghost use Rattle.handing.specs.Released.{block_part};

use limits::BLOCK_LIMIT;

// The released block: the first bytes of the block buffer, as many as the reader has released. Empty in a buffer that is too short.
#[tactic(auto, unfolding(crate::specs::Released::block_part))]
pub fn block_part(block: &[u8], released: usize) -> &[u8]
    ensures { result.now ≡ block_part block.now released }
{
    if block.len() < BLOCK_LIMIT {
        return &block[..0];
    }
    &block[..released.min(block.len())]
}
