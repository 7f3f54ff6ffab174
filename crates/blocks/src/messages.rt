// The message that a block's signature signs, written at the front of a lent buffer.
ghost use Rattle.std.specs.Prelude.{◌++◌, ◌∷◌, ◌≡◌, take};
ghost use Rattle.number.specs.Writing.{written};
ghost use Rattle.stream.specs.Blocks.{block_message};
ghost use Rattle.places.specs.Writing.{placed, wrote};
ghost use Rattle.blocks.specs.Writing.{message_written};

use crate::offsets::ByteOffset;

// Writes the parts of a message, with a zero byte after each but the last, and returns the place after them.
fn join(out: &mut [u8], id: &[u8], offset: &[u8], hash: &[u8]) -> usize
    ensures { placed result out.new ≡ wrote out.old 0 (id.now ++ 0 ∷ (offset.now ++ 0 ∷ hash.now)) }
{
    let id_end = places::put(out, 0, id);
    let offset_start = places::put(out, id_end, b"\0");
    let offset_end = places::put(out, offset_start, offset);
    let hash_start = places::put(out, offset_end, b"\0");
    places::put(out, hash_start, hash)
}

// Writes the message of the block at an offset, of the show whose id is the first bytes of `id`, and returns the message's
// length. Where it does not fit, nothing is written and 0 returned.
// Kept (DESIGN-PASS 6): the id as the state has it.
pub fn message(
    out: &mut [u8],
    id: [u8; 64],
    id_length: usize,
    offset: ByteOffset,
    hash: [u8; 64],
) -> usize
    ensures { written result out.new ≡ message_written (block_message (take id_length id) offset.0 hash) out.old }
{
    let mut digits = [0u8; 20];
    let count = number::write_decimal(&mut digits, 0, offset.0);
    let id_end = id_length.min(64);
    let total = id_end + count + 66;
    if out.len() < total {
        return 0;
    }
    join(out, &id[..id_end], &digits[..count], &hash)
}
