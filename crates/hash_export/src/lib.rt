// SHA-512 and SHA-256 for a program in C or Rust, with numbers and slices of bytes alone.
#![tactic(auto)]

ghost use Rattle.std.specs.Prelude.{◌≡◌};
ghost use Rattle.hash_export.specs.Export.{made, answered, answered256};

// Writes the hash of before and then message to out. Where before or out has not 64 bytes, the answer is false and out is left.
// Kept (DESIGN-PASS 1): the C interface.
#[unsafe(no_mangle)]
pub extern "C" fn thawrushes_sha512_after(before: &[u8], message: &[u8], out: &mut [u8]) -> bool
    ensures { made result out.new ≡ answered before.now message.now out.old }
{
    let Ok(start) = <[u8; 64]>::try_from(before) else {
        return false;
    };
    if out.len() != 64 {
        return false;
    }
    out.copy_from_slice(&hash::sha512_after(start, message));
    true
}

// Writes the SHA-256 hash of first and then second, fed as two parts, to out. Where out has not 32 bytes, the answer is false and out is left.
// Kept (DESIGN-PASS 1): the C interface.
#[unsafe(no_mangle)]
#[tactic(auto, using(crate::proofs::PartLaws::two_parts))]
pub extern "C" fn thawrushes_sha256_of_parts(first: &[u8], second: &[u8], out: &mut [u8]) -> bool
    ensures { made result out.new ≡ answered256 first.now second.now out.old }
{
    if out.len() != 32 {
        return false;
    }
    let all = sha256::add(sha256::add(sha256::start(), first), second);
    out.copy_from_slice(&sha256::finish(all));
    true
}
