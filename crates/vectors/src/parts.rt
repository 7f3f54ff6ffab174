// SHA-256 of a message that is fed in parts.
ghost use Rattle.std.specs.Prelude.{◌<◌};

use crate::lines::Hex;
use sha256::Midstate;
use std::{array, io};

// Three parts, cut at two places.
fn three(text: &[u8], a: usize, b: usize) -> Midstate {
    let first = sha256::add(sha256::start(), places::part(text, 0, a));
    let second = sha256::add(first, places::part(text, a, b));
    sha256::add(second, places::part(text, b, text.len()))
}

// Parts of n bytes each, but for the last.
fn equal(text: &[u8], n: usize) -> Midstate
    requires { 0 < n }
{
    text.chunks(n).fold(sha256::start(), sha256::add)
}

const CUTS: [(usize, usize); 10] = [
    (0, 0),
    (1, 2),
    (55, 56),
    (63, 64),
    (63, 65),
    (64, 128),
    (65, 127),
    (100, 100),
    (120, 199),
    (200, 200),
];

// The same bytes, cut in many ways.
fn in_parts(rt: &impl Print, text: &[u8]) -> io::Result<()> {
    println!(rt; "sha256 of the whole {}", Hex(&sha256::sha256(text)))?;
    for (a, b) in CUTS {
        let digest = sha256::finish(three(text, a, b));
        println!(rt; "cut at {a} and {b} {}", Hex(&digest))?;
    }
    for n in [1, 7, 32, 63, 64, 65, 128] {
        let digest = sha256::finish(equal(text, n));
        println!(rt; "in parts of {n} {}", Hex(&digest))?;
    }
    Ok(())
}

// The numbers 0, 1, 2 and so on, as bytes.
pub fn messages(rt: &impl Print) -> io::Result<()> {
    println!(rt; "\nSHA-256 of 200 bytes in parts")?;
    let text: [u8; 200] = array::from_fn(|i| (i % 251) as u8);
    in_parts(rt, &text)
}
