// A run of a block's data taken at once, up to but not with the block's last byte.
ghost use Rattle.std.specs.Prelude.{◌≡◌};
ghost use Rattle.body_steps.specs.Skip.{passed_of, skipped, skipped_data};

use state::{Phase, Reader, in_phase};

// The reader after the bytes, and how many they are.
#[derive(Clone, Copy)]
pub struct Passed {
    pub reader: Reader,
    pub taken: usize,
}

fn skip_data(r: Reader, block: &mut [u8], have: usize, size: usize, rest: &[u8]) -> Passed
    ensures { passed_of result block.new ≡ skipped_data have size r block.old rest.now }
{
    let most = size.saturating_sub(have).saturating_sub(1);
    let end = most.min(rest.len());
    let next = places::put(block, have, &rest[..end]);
    let reader = in_phase(r, Phase::Data { have: next, size });
    Passed {
        reader,
        taken: next - have,
    }
}

// Takes the bytes of `rest` that are data of the block under way and not its last; in another phase, none.
pub fn skip(r: Reader, block: &mut [u8], rest: &[u8]) -> Passed
    ensures { passed_of result block.new ≡ skipped r block.old rest.now }
{
    let Phase::Data { have, size } = r.phase else {
        return Passed {
            reader: r,
            taken: 0,
        };
    };
    skip_data(r, block, have, size, rest)
}
