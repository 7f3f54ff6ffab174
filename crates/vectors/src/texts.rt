// Base64: RFC 4648's own examples, and texts of 32 and 64 bytes that are good, or bad in one place, and how far these go well.
use crate::lines::Hex;
use std::{fmt, io};

// What a buffer is filled with beforehand, to see whether a refusal leaves it alone.
const MARK: u8 = 170;

fn is_untouched(buffer: &[u8]) -> bool {
    buffer.iter().all(|b| *b == MARK)
}

// How a text was answered, and what the buffer then holds.
#[derive(Clone, Copy)]
struct Answer<'a> {
    ok: bool,
    buffer: &'a [u8],
}

impl fmt::Display for Answer<'_> {
    fn fmt<W: fmt::Write>(&self, f: &mut fmt::Formatter<W>) -> fmt::Result {
        if self.ok {
            return write!(f, "ok [{}]", Hex(self.buffer));
        }
        if is_untouched(self.buffer) {
            return write!(f, "refused, buffer as it was");
        }
        write!(f, "refused, buffer changed")
    }
}

// A text read as n bytes.
fn read(rt: &(impl Print + Alloc), text: &str, n: usize) -> io::Result<()> {
    let mut buffer = vec![in rt.alloc(); MARK; n]?;
    let ok = base64_text::decode(text.as_bytes(), &mut buffer);
    let buffer = &buffer;
    println!(rt; "{n} bytes \"{text}\": {}", Answer { ok, buffer })
}

pub fn short_texts(rt: &(impl Print + Alloc)) -> io::Result<()> {
    println!(rt; "\nBase64, RFC 4648")?;
    read(rt, "", 0)?;
    read(rt, "Zg==", 1)?;
    read(rt, "Zm8=", 2)?;
    read(rt, "Zm9v", 3)?;
    read(rt, "Zm9vYg==", 4)?;
    read(rt, "Zm9vYmE=", 5)?;
    read(rt, "Zm9vYmFy", 6)?;
    // 54, 21, 248
    read(rt, "NhX4", 3)?;
    // spare bits set, a letter after padding, padding for a letter, too few bytes
    read(rt, "Zh==", 1)?;
    read(rt, "Zm9=", 2)?;
    read(rt, "Zg=A", 1)?;
    read(rt, "Zm9=", 3)?;
    read(rt, "Zg==", 2)
}

// At how many of its first characters a text is the base64 of as many bytes as the buffer has, and where a refusal changes the buffer.
fn beginnings(rt: &impl Print, text: &[u8], buffer: &mut [u8]) -> io::Result<()> {
    print!(rt; "of its beginnings of 0 to 90 characters ok at:")?;
    for n in 0..=text.len().min(90) {
        buffer.fill(MARK);
        if base64_text::decode(&text[..n], buffer) {
            print!(rt; " {n}")?;
        } else if !is_untouched(buffer) {
            print!(rt; " changed")?;
        }
    }
    println!(rt)
}

// Texts of a key, each with what the line says of it.
const KEYS: [(&str, &str); 5] = [
    ("good", "yMnKy8zNzs/Q0dLT1NXW19jZ2tvc3d7f4OHi4+Tl5uc="),
    (
        "a byte that is no letter",
        "yMnKy8zNzs/Q0dLT1NXW1-jZ2tvc3d7f4OHi4+Tl5uc=",
    ),
    (
        "a letter for the padding",
        "yMnKy8zNzs/Q0dLT1NXW19jZ2tvc3d7f4OHi4+Tl5ucA",
    ),
    (
        "padding for a letter",
        "yMnKy8zNzs/Q0dLT1NXW19jZ2tvc3d7f4OHi4+Tl5u==",
    ),
    (
        "spare bits set",
        "yMnKy8zNzs/Q0dLT1NXW19jZ2tvc3d7f4OHi4+Tl5ud=",
    ),
];

pub fn keys(rt: &impl Print) -> io::Result<()> {
    println!(rt; "\nBase64 of a key, 32 bytes")?;
    for (what, text) in KEYS {
        let mut buffer = [MARK; 32];
        let ok = base64_text::key(text.as_bytes(), &mut buffer);
        let buffer = &buffer;
        println!(rt; "{what}: {}", Answer { ok, buffer })?;
    }
    beginnings(
        rt,
        b"yMnKy8zNzs/Q0dLT1NXW19jZ2tvc3d7f4OHi4+Tl5uc=AwoRGB8mLTQ7QklQV15lbHN6gYiPlp2kq7K5wMfO1d",
        &mut [MARK; 32],
    )
}

// Texts of a signature.
const SIGNATURES: [(&str, &str); 5] = [
    (
        "good",
        "AwoRGB8mLTQ7QklQV15lbHN6gYiPlp2kq7K5wMfO1dzj6vH4/wYNFBsiKTA3PkVMU1phaG92fYSLkpmgp661vA==",
    ),
    (
        "a byte that is no letter",
        "AwoRGB8mLTQ7QklQV15lbHN6gYiPlp2kq7K5wMfO1dzj6vH4_wYNFBsiKTA3PkVMU1phaG92fYSLkpmgp661vA==",
    ),
    (
        "a letter for the padding",
        "AwoRGB8mLTQ7QklQV15lbHN6gYiPlp2kq7K5wMfO1dzj6vH4/wYNFBsiKTA3PkVMU1phaG92fYSLkpmgp661vA=A",
    ),
    (
        "padding for a letter",
        "AwoRGB8mLTQ7QklQV15lbHN6gYiPlp2kq7K5wMfO1dzj6vH4/wYNFBsiKTA3PkVMU1phaG92fYSLkpmgp661v===",
    ),
    (
        "spare bits set",
        "AwoRGB8mLTQ7QklQV15lbHN6gYiPlp2kq7K5wMfO1dzj6vH4/wYNFBsiKTA3PkVMU1phaG92fYSLkpmgp661vB==",
    ),
];

// Kept (DESIGN-PASS 2): it tries another function than `keys`, and no bound `Fn` may name the length of an array.
pub fn signatures(rt: &impl Print) -> io::Result<()> {
    println!(rt; "\nBase64 of a signature, 64 bytes")?;
    for (what, text) in SIGNATURES {
        let mut buffer = [MARK; 64];
        let ok = base64_text::signature(text.as_bytes(), &mut buffer);
        let buffer = &buffer;
        println!(rt; "{what}: {}", Answer { ok, buffer })?;
    }
    beginnings(
        rt,
        b"AwoRGB8mLTQ7QklQV15lbHN6gYiPlp2kq7K5wMfO1dzj6vH4/wYNFBsiKTA3PkVMU1phaG92fYSLkpmgp661vA==AA",
        &mut [MARK; 64],
    )
}

// How far a text goes well as the base64 of n bytes.
fn stop(rt: &impl Print, name: &str, text: &[u8], n: usize) -> io::Result<()> {
    let checked = base64_text::check(text, n);
    let good = if checked.good { ", good" } else { "" };
    println!(rt; "{name}: {}{good}", checked.at)
}

// The same with byte b at each place in turn.
fn stops_with<const N: usize>(rt: &impl Print, text: &[u8; N], n: usize, b: u8) -> io::Result<()> {
    print!(rt; "with {} at each place:", char::from(b))?;
    for at in 0..N {
        let mut changed = *text;
        changed[at] = b;
        print!(rt; " {}", base64_text::check(&changed, n).at)?;
    }
    println!(rt)
}

// The same with each of some bytes.
fn all_stops<const N: usize>(rt: &impl Print, text: &[u8; N], n: usize) -> io::Result<()> {
    for b in [b'=', b'A', b'B', b'-'] {
        stops_with(rt, text, n, b)?;
    }
    Ok(())
}

pub fn stops(rt: &impl Print) -> io::Result<()> {
    println!(rt; "\nBase64 of a key, how far it goes well")?;
    let key = b"yMnKy8zNzs/Q0dLT1NXW19jZ2tvc3d7f4OHi4+Tl5uc=";
    stop(rt, "good", key, 32)?;
    stop(
        rt,
        "one character more",
        b"yMnKy8zNzs/Q0dLT1NXW19jZ2tvc3d7f4OHi4+Tl5uc==",
        32,
    )?;
    stop(rt, "no character", b"", 32)?;
    stop(
        rt,
        "a padded group before it",
        b"Zm8=yMnKy8zNzs/Q0dLT1NXW19jZ2tvc3d7f4OHi4+Tl5uc=",
        32,
    )?;
    all_stops(rt, key, 32)?;
    println!(rt; "\nBase64 of a signature, how far it goes well")?;
    let signature =
        b"AwoRGB8mLTQ7QklQV15lbHN6gYiPlp2kq7K5wMfO1dzj6vH4/wYNFBsiKTA3PkVMU1phaG92fYSLkpmgp661vA==";
    stop(rt, "good", signature, 64)?;
    stop(rt, "one character less", &signature[..87], 64)?;
    stop(rt, "two characters less", &signature[..86], 64)?;
    stop(rt, "a key in its place", key, 64)?;
    all_stops(rt, signature, 64)
}
