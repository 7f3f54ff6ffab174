// A message's end: the padding (FIPS 180-4, 5.1) and the last blocks, whatever the words are.
ghost use Rattle.std.specs.Prelude.{◌≡◌, ◌+◌, ◌*◌, ◌%◌, ◌<◌, ◌≤◌, length, take, map};
ghost use Rattle.hash.specs.Sha2.{block_size, zeros};
ghost use Rattle.hash.specs.Parts.{by_table, last_blocks, last_hashed};

use crate::block::compress_all;
use crate::bytes::{bytes_of, copy, put_word};
use crate::words::{Sha2, Words};

// How many bytes n last ones are with the padding: a block, or two where the first has no room for the length.
fn padded<S: Words>(n: usize) -> usize
    requires { n < block_size S.variant }
    ensures long { result ≡ n + 1 + zeros S.variant n + 2 * S.variant.bytes }
    ensures room { result ≤ 2 * block_size S.variant }
{
    let block = 16 * S::BYTES;
    if n + S::LENGTH < block {
        block
    } else {
        2 * block
    }
}

// The last bytes with the padding, in the first of two blocks or in both. What stands after them is not read.
fn fill<S: Words>(rest: &[u8], high: S::Word, low: S::Word) -> [u8; 256]
    requires { length rest.now < block_size S.variant }
    ensures { take (length (last_blocks S.variant rest.now (S.value high) (S.value low))) result ≡ last_blocks S.variant rest.now (S.value high) (S.value low) }
{
    let mut t = [0u8; 256];
    let n = rest.len();
    let end = padded::<S>(n);
    copy(&mut t, 0, rest);
    t[n] = 128;
    put_word::<S>(&mut t, end - S::LENGTH, high);
    put_word::<S>(&mut t, end - S::BYTES, low);
    t
}

// The hash of a message whose first blocks are hashed to the value s, whose other bytes are body, and whose length in bits the words high
// and low write. The round words are those that the caller lends.
pub fn close<S: Sha2<ROUNDS, SIZE>, const ROUNDS: usize, const SIZE: usize>(
    words: &[S::Word; ROUNDS],
    s: [S::Word; 8],
    body: &[u8],
    high: S::Word,
    low: S::Word,
) -> [u8; SIZE]
    ensures { let v = by_table S.variant (map S.value words.now) in
        result ≡ last_hashed v (last_blocks v body.now (S.value high) (S.value low)) (map S.value s) }
{
    let h = compress_all::<S, ROUNDS, SIZE>(words, body, s);
    let rest = &body[body.len() - body.len() % (16 * S::BYTES)..];
    let t = fill::<S>(rest, high, low);
    let last = compress_all::<S, ROUNDS, SIZE>(words, &t[..padded::<S>(rest.len())], h);
    bytes_of::<S, SIZE>(last)
}
