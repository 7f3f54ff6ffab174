// SHA-512 (FIPS 180-4) of bytes that the caller lends, of any number; and what SHA-256 shares with it, whatever the words are.
#![tactic(auto)]

ghost use Rattle.std.specs.Prelude.{◌≡◌, ◌+◌, ◌*◌, ◌/◌, ◌%◌, ◌^◌, ◌≤◌, ◌++◌, length};
ghost use Rattle.hash.specs.Sha2.{blocks, hashed, finished};
ghost use Rattle.hash.specs.Sha512.{variant, round_words, sha512};

use block::compress_all;
use bytes::copy;
use last::close;
use table::{INITIAL, ROUND_WORDS};
use words64::Sha512Words;

pub mod block;
mod bytes;
pub mod last;
mod table;
pub mod words;
mod words64;

// The high word of the length in bits of a message of seen blocks, one at most, and n bytes more.
// Bytes are counted in eights, so that no sum wraps whatever n is.
fn bits_high(seen: usize, n: usize) -> u64
    requires { seen ≤ 1 }
    ensures { result ≡ 8 * (seen * 128 + n) / 2 ^ 64 }
{
    ((seen * 16 + n / 8) / 0x0400_0000_0000_0000) as u64
}

// The low word of that length.
fn bits_low(seen: usize, n: usize) -> u64
    requires { seen ≤ 1 }
    ensures { result ≡ 8 * (seen * 128 + n) % 2 ^ 64 }
{
    ((seen * 16 + n / 8) % 0x0400_0000_0000_0000 * 64 + n % 8 * 8) as u64
}

// The hash value after the whole blocks of p.
// The table of round words is lent by the outermost caller, so that it is made once for a message and not for each block.
fn hash_blocks(words: &[u64; 80], p: &[u8], before: [u64; 8]) -> [u64; 8]
    requires { words.now ≡ round_words }
    ensures { result ≡ hashed variant (blocks variant p.now) p.now before }
{
    compress_all::<Sha512Words, 80, 64>(words, p, before)
}

// The hash of a message whose first blocks, seen of them, are hashed to the value before, and whose other bytes are body.
fn finish(words: &[u64; 80], before: [u64; 8], seen: usize, body: &[u8]) -> [u8; 64]
    requires { (words.now ≡ round_words) × (seen ≤ 1) }
    ensures { result ≡ finished variant (seen * 128 + length body.now) body.now before }
{
    let n = body.len();
    close::<Sha512Words, 80, 64>(words, before, body, bits_high(seen, n), bits_low(seen, n))
}

// The hash of a message.
pub fn sha512(message: &[u8]) -> [u8; 64]
    ensures { result ≡ sha512 message.now }
{
    finish(&ROUND_WORDS, INITIAL, 0, message)
}

// The hash of the 64 bytes before and then a message, which is read where it lies but for its first 64 bytes:
// those fill a block with the bytes before them.
pub fn sha512_after(before: [u8; 64], message: &[u8]) -> [u8; 64]
    ensures { result ≡ sha512 (before ++ message.now) }
{
    let words = &ROUND_WORDS;
    let mut first = [0u8; 128];
    copy(&mut first, 0, &before);
    let n = message.len();
    if n < 64 {
        copy(&mut first, 64, message);
        let end = 64 + n;
        return finish(words, INITIAL, 0, &first[..end]);
    }
    copy(&mut first, 64, &message[0..64]);
    let h = hash_blocks(words, &first, INITIAL);
    finish(words, h, 1, &message[64..])
}
