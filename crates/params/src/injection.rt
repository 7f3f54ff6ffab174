// The value of `X-Ouinet-Injection`: an id and a time in seconds. None where it is not good.
ghost use Rattle.std.specs.Prelude.{[], ◌∷◌, ◌≡◌, ◌≤◌, length};
ghost use Rattle.stream.specs.Signatures.{injection_scan};
ghost use Rattle.stream.specs.Template.{parts};
ghost use Rattle.params.specs.Injection.{injection_of, padded};

use crate::parts;
use classes::Class;

// The first `id_length` bytes of `id` are the id.
// Kept (DESIGN-PASS 6): the reader has no heap, and an id has 64 bytes at most.
#[derive(Clone, Copy)]
pub struct Injection {
    pub id_length: usize,
    pub id: [u8; limits::ID_LIMIT],
    pub time: u64,
}

pub fn read_injection(value: &[u8]) -> Option<Injection>
    ensures { result ≡ injection_of (injection_scan value.now) }
{
    let id = parts::run_after(value, 0, b"id=", Class::Id)?;
    let time = parts::run_after(value, id.next, b",ts=", Class::Digit)?;
    if time.next < value.len() {
        return None;
    }
    judge(parts::bytes_of(value, id), parts::bytes_of(value, time))
}

// An id and a time, each with bytes of its class only.
fn judge(id: &[u8], time: &[u8]) -> Option<Injection>
    ensures { result ≡ injection_of (parts (id.now ∷ time.now ∷ [])) }
{
    if id.len() < 1 {
        return None;
    }
    if limits::ID_LIMIT < id.len() {
        return None;
    }
    let seconds = number::decimal(time, limits::TIME_DIGITS).ok()?;
    Some(Injection {
        id_length: id.len(),
        id: fill(id),
        time: seconds,
    })
}

// The bytes of an id, and zeros after them.
fn fill(id: &[u8]) -> [u8; limits::ID_LIMIT]
    requires { length id.now ≤ 64 }
    ensures { result ≡ padded 64 id.now }
{
    let mut bytes = [0u8; limits::ID_LIMIT];
    bytes[..id.len()].copy_from_slice(id);
    bytes
}
