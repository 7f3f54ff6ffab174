// Byte strings compared, with case and without.
ghost use Rattle.std.specs.Prelude.{◌≡◌, drop};
ghost use Rattle.stream.specs.Bytes.{lower as lowerOf, same as isSame, same_name};
ghost use Rattle.stream.specs.Template.{starts_with};

// Whether `t` stands at `from`.
pub fn starts_with(s: &[u8], from: usize, t: &[u8]) -> bool
    ensures { result ≡ starts_with t.now (drop from s.now) }
{
    s[from.min(s.len())..].starts_with(t)
}

#[tactic(auto, using(crate::proofs::SameLaws::same_is))]
pub fn same(a: &[u8], b: &[u8]) -> bool
    ensures { result ≡ isSame a.now b.now }
{
    a == b
}

pub fn lower(b: u8) -> u8
    ensures { result ≡ lowerOf b }
{
    b.to_ascii_lowercase()
}

// All bytes are compared, whatever the first ones are: without a way out of the loop the machine takes many bytes at a turn, and long names that
// differ only at their ends cost little.
pub fn same_name(a: &[u8], b: &[u8]) -> bool
    ensures { result ≡ same_name a.now b.now }
{
    if a.len() != b.len() {
        return false;
    }
    let mut same = true;
    for (x, y) in a.iter().zip(b) {
        same &= lower(*x) == lower(*y);
    }
    same
}
