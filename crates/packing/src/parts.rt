// Numbers and runs of bytes, read from a buffer and written over it.
ghost use Rattle.std.specs.Prelude.{◌≡◌, length};
ghost use Rattle.std.proofs.lemmas.List.Edits.{sets};
ghost use Rattle.packing.specs.Parts.{little_endian, all_bytes, part, number_at, placing, placed};

// The N bytes from the place `at` on.
pub fn bytes<const N: usize>(from: &[u8], at: usize) -> [u8; N]
    ensures { result ≡ part from.now at N }
{
    let mut found = [0; N];
    if let Some(rest) = from.get(at..) {
        places::put(&mut found, 0, rest);
    }
    found
}

// The number that eight bytes write, from the place `at` on.
#[tactic(auto, using(crate::proofs::PartLaws::number_is))]
pub fn number_at(from: &[u8], at: usize) -> u64
    ensures { result ≡ number_at from.now at }
{
    u64::from_le_bytes(bytes(from, at))
}

// Writes bytes over as many, from the place `at` on.
fn put_bytes(to: &mut [u8], at: usize, from: &[u8])
    ensures { to.new ≡ sets to.old at from.now }
{
    places::put(to, at, from);
}

// Writes an array over as many bytes; that it has its length is said beside.
pub fn put_array<const N: usize>(to: &mut [u8], at: usize, bytes: [u8; N])
    ensures { (to.new ≡ sets to.old at bytes.entry) × (length bytes.entry ≡ N) }
{
    put_bytes(to, at, &bytes);
}

// Writes a number over eight bytes, from the place `at` on.
#[tactic(auto, using(crate::proofs::PartLaws::little_endian_is))]
pub fn put_number(to: &mut [u8], at: usize, n: u64)
    ensures { to.new ≡ sets to.old at (little_endian 8 n) }
{
    put_bytes(to, at, &n.to_le_bytes());
}

// Writes numbers over eight bytes each, from the place `at` on.
pub fn put_numbers(to: &mut [u8], at: u16, numbers: &[u64])
    ensures { to.new ≡ sets to.old at (all_bytes numbers.now) }
{
    let start = usize::from(at);
    for (i, n) in numbers.iter().enumerate() {
        put_number(to, start + 8 * i, *n);
    }
}

// Writes bytes over the front of a buffer, all of them or, where they do not fit, none. How many they are is the answer.
pub fn place(bytes: &[u8], to: &mut [u8]) -> usize
    ensures { placing result to.new ≡ placed bytes.now to.old }
{
    let n = bytes.len();
    if to.len() < n {
        return n;
    }
    put_bytes(to, 0, bytes);
    n
}
