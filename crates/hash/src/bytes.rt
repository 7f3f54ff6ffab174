// Words as bytes, the highest first.
ghost use Rattle.std.specs.Prelude.{◌≡◌, ◌+◌, ◌*◌, ◌≤◌, length, map};
ghost use Rattle.hash.specs.Sha2.{big_endian, unparsed};
ghost use Rattle.hash.specs.Parts.{written};

use crate::words::Words;

// Writes the word x over as many bytes of out as a word has, from the place at on.
pub(crate) fn put_word<S: Words>(out: &mut [u8], at: usize, x: S::Word)
    requires { at + S.variant.bytes ≤ length out.old }
    ensures { out.new ≡ written out.old at (big_endian S.variant.bytes (S.value x)) }
{
    S::write(x, &mut out[at..at + S::BYTES]);
}

// The bytes of eight words.
pub(crate) fn bytes_of<S: Words, const SIZE: usize>(words: [S::Word; 8]) -> [u8; SIZE]
    requires { SIZE ≡ 8 * S.variant.bytes }
    ensures { result ≡ unparsed S.variant (map S.value words) }
{
    let mut out = [0u8; SIZE];
    for (i, word) in words.iter().enumerate() {
        put_word::<S>(&mut out, i * S::BYTES, *word);
    }
    out
}

// Writes the bytes of from over those of to, from the place at on.
pub(crate) fn copy(to: &mut [u8], at: usize, from: &[u8])
    requires { at + length from.now ≤ length to.old }
    ensures { to.new ≡ written to.old at from.now }
{
    to[at..at + from.len()].copy_from_slice(from);
}
