// Bytes cleared in a lent buffer.
ghost use Rattle.std.specs.Prelude.{◌≡◌};
ghost use Rattle.state.specs.Configuration.{cleared};

// The first `count` bytes set to zero, or all where there are fewer.
pub(crate) fn clear(block: &mut [u8], count: usize)
    ensures { block.new ≡ cleared count block.old }
{
    let end = count.min(block.len());
    block[..end].fill(0);
}
