// The value of `X-Ouinet-Sig0`, and of `X-Ouinet-Sig1`, which is written likewise: a key, a time, the signed names and a signature. None
// where it is not good.
ghost use Rattle.std.specs.Prelude.{[], ◌∷◌, map};
ghost use Rattle.stream.specs.Signatures.{sig0_scan};
ghost use Rattle.stream.specs.Template.{parts};
ghost use Rattle.params.specs.HeadSig.{ReadsSig0};
ghost use Rattle.params.specs.Parts.{Inside, run_bytes};

use crate::parts;
use crate::parts::Run;
use classes::Class;

// The time `created` and the names lie in the value from their start up to their end.
#[derive(Clone, Copy)]
pub struct Sig0 {
    pub key: [u8; 32],
    pub signature: [u8; 64],
    pub created_start: usize,
    pub created_end: usize,
    pub names_start: usize,
    pub names_end: usize,
}

pub fn read_sig0(value: &[u8]) -> Option<Sig0>
    ensures { ReadsSig0 value.now (sig0_scan value.now) result }
{
    let key = parts::key_part(value)?;
    let created = parts::run_up_to(value, key.next, b"created=", Class::Digit, b",")?;
    let names = parts::run_up_to(value, created.next, b"headers=\"", Class::Quoted, b"\",")?;
    let signature = parts::run_after(value, names.next, b"signature=\"", Class::Quoted)?;
    if !text::starts_with(value, signature.next, b"\"") {
        return None;
    }
    if signature.next + 1 < value.len() {
        return None;
    }
    judge(value, key, created, names, signature)
}

// A key, a time and a signature, each by the bytes of its run; of the names only the run is taken.
fn judge(value: &[u8], key: Run, created: Run, names: Run, signature: Run) -> Option<Sig0>
    requires { Inside value.now key × Inside value.now created × Inside value.now names × Inside value.now signature }
    ensures { ReadsSig0 value.now (parts (map (run_bytes value.now) (key ∷ created ∷ names ∷ signature ∷ []))) result }
{
    let key_bytes = base64_text::bytes(parts::bytes_of(value, key))?;
    let signature_bytes = base64_text::bytes(parts::bytes_of(value, signature))?;
    let _time = number::decimal(parts::bytes_of(value, created), limits::TIME_DIGITS).ok()?;
    Some(Sig0 {
        key: key_bytes,
        signature: signature_bytes,
        created_start: created.start,
        created_end: created.end,
        names_start: names.start,
        names_end: names.end,
    })
}
