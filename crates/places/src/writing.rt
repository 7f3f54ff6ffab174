// Bytes written into a lent buffer.
ghost use Rattle.std.specs.Prelude.{◌≡◌};
ghost use Rattle.places.specs.Writing.{placed, wrote};

// Writes from the place `at` on, as far as there is room, and returns the place after what it wrote. A loop is compiled to copies of many bytes in
// place; a call of `copy_from_slice` is slower for a few bytes, and for a whole block of 65,536.
#[tactic(auto, using(crate::proofs::WritingLaws::put_turn), unfolding(crate::specs::Writing::wrote))]
pub fn put(out: &mut [u8], at: usize, bytes: &[u8]) -> usize
    ensures { placed result out.new ≡ wrote out.old at bytes.now }
{
    let count = bytes.len().min(out.len().saturating_sub(at));
    for i in 0..count {
        out[at + i] = bytes[i];
    }
    at + count
}
