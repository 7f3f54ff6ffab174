// The three fields: whether any is there, and what they say, where all lines of the trailer are field lines. Of another trailer nothing is said:
// it is refused before its fields are looked for.
ghost use Rattle.std.specs.Prelude.{◌≡◌, List};
ghost use Rattle.stream.specs.Ends.{is_claimed};
ghost use Rattle.stream.specs.Lines.{Field};
ghost use Rattle.end_fields.specs.Found.{AreLines, both_in};
ghost use Rattle.end_fields.specs.Reading.{ReadsEnd, ReadsParts};

use crate::{found, texts};
use fields::Fields;
use params::Sig0;

// Whether each is there once, and of each, whatever the others are, what it says; None where it is not good. The places of `sig1` are places in the
// value of `X-Ouinet-Sig1`.
#[derive(Clone, Copy)]
pub struct EndParts {
    pub once: bool,
    pub digest: Option<[u8; 32]>,
    pub size: Option<u64>,
    pub sig1: Option<Sig0>,
}

// What each says, where all are there once and good.
#[derive(Clone, Copy)]
pub struct EndRead {
    pub digest: [u8; 32],
    pub size: u64,
    pub sig1: Sig0,
}

impl EndParts {
    // None where one of them is not there once, or is not good.
    pub fn all(self) -> Option<EndRead>
        ensures { (fs : List Field) → ReadsParts fs self → ReadsEnd fs result }
    {
        if !self.once {
            return None;
        }
        let digest = self.digest?;
        let size = self.size?;
        let sig1 = self.sig1?;
        Some(EndRead { digest, size, sig1 })
    }
}

// Whether head or trailer has any of them.
pub fn is_claimed(text: &[u8], f: Fields, trailer: &[u8]) -> bool
    ensures { AreLines trailer.now → result ≡ is_claimed (both_in text.now f trailer.now) }
{
    let digest = found::has(text, f, trailer, b"digest");
    let size = found::has(text, f, trailer, b"x-ouinet-data-size");
    let sig1 = found::has(text, f, trailer, b"x-ouinet-sig1");
    digest | (size | sig1)
}

// Each is read as if it were there once: of more than one it is the first, and of none an empty text.
pub fn read_end<'a>(text: &'a [u8], f: Fields, trailer: &'a [u8]) -> EndParts
    ensures { AreLines trailer.now → ReadsParts (both_in text.now f trailer.now) result }
{
    let first = found::is_once(text, f, trailer, b"digest");
    let second = found::is_once(text, f, trailer, b"x-ouinet-data-size");
    let third = found::is_once(text, f, trailer, b"x-ouinet-sig1");
    let digest = texts::read_digest(found::value_of(text, f, trailer, b"digest"));
    let size = texts::read_data_size(found::value_of(text, f, trailer, b"x-ouinet-data-size"));
    let sig1 = params::read_sig0(found::value_of(text, f, trailer, b"x-ouinet-sig1"));
    EndParts {
        once: first & (second & third),
        digest,
        size,
        sig1,
    }
}
