// SHA-256 (FIPS 180-4) of bytes that come in parts, of any number and however they are cut.
#![tactic(auto)]

ghost use Rattle.std.specs.Prelude.{◌≡◌, ◌+◌, ◌*◌, ◌/◌, ◌%◌, ◌^◌, ◌<◌, ◌≤◌, ◌++◌, length};
ghost use Rattle.hash.specs.Sha2.{blocks, hashed};
ghost use Rattle.sha256.specs.Sha256.{variant, round_words, sha256};
ghost use Rattle.sha256.specs.Midstate.{pending, start, added, summed};

use hash::block::compress_all;
use hash::last;
use places::put;
use table::{INITIAL, ROUND_WORDS};
use words32::Sha256Words;

mod table;
mod words32;

// What is kept while bytes come: the hash value after the whole blocks, the bytes after them (count % 64 of rest), and how many came,
// modulo 2^64.
// Kept (DESIGN-PASS 6): the reader has no heap, and the state has its places in the bytes that C lends.
#[derive(Clone, Copy)]
pub struct Midstate {
    pub words: [u32; 8],
    pub rest: [u8; 64],
    pub count: u64,
}

// After no byte.
pub fn start() -> Midstate
    ensures { result ≡ start }
{
    Midstate {
        words: INITIAL,
        rest: [0u8; 64],
        count: 0,
    }
}

// How many bytes wait for their block to be whole.
fn held(count: u64) -> usize
    ensures { result ≡ count % 64 }
{
    (count % 64) as usize
}

// The count with n bytes more.
fn counted(count: u64, n: usize) -> u64
    ensures { result ≡ (count + n) % 2 ^ 64 }
{
    count.wrapping_add(n as u64)
}

// The high word of the length in bits of a message of n bytes.
fn bits_high(n: u64) -> u32
    ensures { result ≡ 8 * n / 2 ^ 32 % 2 ^ 32 }
{
    (n / 0x2000_0000 % 0x1_0000_0000) as u32
}

// The low word of that length.
fn bits_low(n: u64) -> u32
    ensures { result ≡ 8 * n % 2 ^ 32 }
{
    (n % 0x2000_0000 * 8) as u32
}

// The hash value after the whole blocks of p.
// The table of round words is lent by the outermost caller, so that it is made once for a message and not for each block.
fn hash_blocks(words: &[u32; 64], p: &[u8], before: [u32; 8]) -> [u32; 8]
    requires { words.now ≡ round_words }
    ensures { result ≡ hashed variant (blocks variant p.now) p.now before }
{
    compress_all::<Sha256Words, 64, 32>(words, p, before)
}

// Bytes that leave the block open.
fn keep(h: Midstate, bytes: &[u8]) -> Midstate
    requires { h.count % 64 + length bytes.now < 64 }
    ensures { result ≡ added h bytes.now }
{
    let n = held(h.count);
    let words = h.words;
    let old = h.rest;
    let mut rest = [0u8; 64];
    put(&mut rest, 0, &old[0..n]);
    put(&mut rest, n, bytes);
    Midstate {
        words,
        rest,
        count: counted(h.count, bytes.len()),
    }
}

// The hash value after the block that waits, if one does, with as many of the bytes as it lacks.
fn close(words: &[u32; 64], h: Midstate, bytes: &[u8]) -> [u32; 8]
    requires { (words.now ≡ round_words) × (64 ≤ h.count % 64 + length bytes.now) }
    ensures { result ≡ hashed variant ((h.count % 64 + 63) / 64) (pending h ++ bytes.now) h.words }
{
    let n = held(h.count);
    let s = h.words;
    if n == 0 {
        return s;
    }
    let mut block = h.rest;
    put(&mut block, n, bytes);
    hash_blocks(words, &block, s)
}

// Bytes that fill a block, or more than one: those after the first are read where they lie.
fn pass(words: &[u32; 64], h: Midstate, bytes: &[u8]) -> Midstate
    requires { (words.now ≡ round_words) × (64 ≤ h.count % 64 + length bytes.now) }
    ensures { result ≡ added h bytes.now }
{
    let n = bytes.len();
    let from = (64 - held(h.count)) % 64;
    let whole = (n - from) / 64;
    let end = from + whole * 64;
    let first = close(words, h, bytes);
    let last = hash_blocks(words, &bytes[from..n], first);
    let mut rest = [0u8; 64];
    put(&mut rest, 0, &bytes[end..n]);
    Midstate {
        words: last,
        rest,
        count: counted(h.count, n),
    }
}

// After some bytes more.
pub fn add(h: Midstate, bytes: &[u8]) -> Midstate
    ensures { result ≡ added h bytes.now }
{
    if bytes.len() < 64 - held(h.count) {
        return keep(h, bytes);
    }
    pass(&ROUND_WORDS, h, bytes)
}

// The hash of all bytes that came.
pub fn finish(h: Midstate) -> [u8; 32]
    ensures { result ≡ summed h }
{
    let n = held(h.count);
    let rest = h.rest;
    last::close::<Sha256Words, 64, 32>(
        &ROUND_WORDS,
        h.words,
        &rest[..n],
        bits_high(h.count),
        bits_low(h.count),
    )
}

// The hash of a message that is all there.
pub fn sha256(message: &[u8]) -> [u8; 32]
    ensures { result ≡ sha256 message.now }
{
    finish(add(start(), message))
}
