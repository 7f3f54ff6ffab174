// The base64 of a signature for a program in C or Rust, with a slice and an array of bytes alone.
#![tactic(auto)]

ghost use Rattle.std.specs.Prelude.{◌≡◌};
ghost use Rattle.base64_text.specs.Decoding.{answered, decoded};

// Reads text as a signature, 64 bytes. Where it is one, out holds them and the answer is true; else out is as it was.
// Kept (DESIGN-PASS 1): the C interface.
#[unsafe(no_mangle)]
pub extern "C" fn thawrushes_signature(text: &[u8], out: &mut [u8; 64]) -> bool
    ensures { answered result out.new ≡ decoded 64 text.now out.old }
{
    base64_text::signature(text, out)
}
