// SHA-512 and SHA-256: the messages of FIPS 180-4's examples, and lengths around the end of a block; and the hash chain of the published example.
use crate::lines::Hex;
use std::fmt::Display;
use std::io;

const SHORT_MESSAGE: &str = "abcdbcdecdefdefgefghfghighijhijkijkljklmklmnlmnomnopnopq";

const LONG_MESSAGE: &str =
    "abcdefghbcdefghicdefghijdefghijkefghijklfghijklmghijklmnhijklmnoijklmnopjklmnopqklmnopqrlmnopqrsmnopqrstnopqrstu";

// The hash function that a line is of.
#[derive(Clone, Copy)]
enum Function {
    Sha512,
    Sha256,
}

impl Function {
    // A message's hash, behind what the line says of the message.
    fn line(self, rt: &impl Print, what: impl Display + Drop, message: &[u8]) -> io::Result<()> {
        match self {
            Function::Sha512 => println!(rt; "sha512 {what} {}", Hex(&hash::sha512(message))),
            Function::Sha256 => println!(rt; "sha256 {what} {}", Hex(&sha256::sha256(message))),
        }
    }

    fn messages(self, rt: &impl Print, all: &[(&str, &str)]) -> io::Result<()> {
        for (what, message) in all {
            self.line(rt, *what, message.as_bytes())?;
        }
        Ok(())
    }

    // Messages of so many letters a.
    fn letters(self, rt: &(impl Print + Alloc), counts: &[usize]) -> io::Result<()> {
        for n in counts {
            let message = vec![in rt.alloc(); b'a'; *n]?;
            self.line(rt, format_args!("of {n} times a"), &message)?;
        }
        Ok(())
    }
}

pub fn sha512_lines(rt: &(impl Print + Alloc)) -> io::Result<()> {
    println!(rt; "SHA-512, FIPS 180-4")?;
    let messages = [
        ("\"\"", ""),
        ("\"abc\"", "abc"),
        ("of the 896 bit message", LONG_MESSAGE),
    ];
    Function::Sha512.messages(rt, &messages)?;
    Function::Sha512.letters(rt, &[111, 112, 127, 128, 239, 240, 1000000])
}

pub fn sha256_lines(rt: &(impl Print + Alloc)) -> io::Result<()> {
    println!(rt; "\nSHA-256, FIPS 180-4")?;
    let messages = [
        ("\"\"", ""),
        ("\"abc\"", "abc"),
        ("of the 448 bit message", SHORT_MESSAGE),
        ("of the 896 bit message", LONG_MESSAGE),
    ];
    Function::Sha256.messages(rt, &messages)?;
    Function::Sha256.letters(rt, &[55, 56, 63, 64, 65, 119, 120, 128, 1000000])
}

pub fn chain(rt: &impl Print) -> io::Result<()> {
    println!(rt; "\nHash chain of \"Hello world!\" in blocks of 5 bytes")?;
    let mut before = None;
    for (i, block) in b"Hello world!".chunks(5).enumerate() {
        let digest = match before {
            None => hash::sha512(block),
            Some(d) => hash::sha512_after(d, block),
        };
        println!(rt; "hash({i}) {}", Hex(&digest))?;
        before = Some(digest);
    }
    Ok(())
}
