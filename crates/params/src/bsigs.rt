// The value of `X-Ouinet-BSigs`: a key and the size of a block. None where it is not good.
ghost use Rattle.std.specs.Prelude.{[], ◌∷◌, ◌≡◌};
ghost use Rattle.stream.specs.Signatures.{bsigs_scan};
ghost use Rattle.stream.specs.Template.{parts};
ghost use Rattle.params.specs.BlockSigs.{bsigs_of};

use crate::parts;
use classes::Class;

#[derive(Clone, Copy)]
pub struct Bsigs {
    pub key: [u8; 32],
    pub size: usize,
}

pub fn read_bsigs(value: &[u8]) -> Option<Bsigs>
    ensures { result ≡ bsigs_of (bsigs_scan value.now) }
{
    let key = parts::key_part(value)?;
    let size = parts::run_after(value, key.next, b"size=", Class::Digit)?;
    if size.next < value.len() {
        return None;
    }
    judge(parts::bytes_of(value, key), parts::bytes_of(value, size))
}

fn judge(key: &[u8], size: &[u8]) -> Option<Bsigs>
    ensures { result ≡ bsigs_of (parts (key.now ∷ size.now ∷ [])) }
{
    let bytes = base64_text::bytes(key)?;
    let n = number::count(size, limits::BLOCK_DIGITS, limits::BLOCK_LIMIT as u64).ok()?;
    Some(Bsigs {
        key: bytes,
        size: n as usize,
    })
}
