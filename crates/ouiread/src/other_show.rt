// What is said of a head with another URI than the one that was asked for.
use state::{Phase, Reader};
use std::fmt;

// The refusal that says so.
const OTHER_URI: u8 = 16;

// So many bytes of a URI are shown, and dots for what is left out.
const SHOWN: usize = 100;

// Where one of the two has more, so many stand before the first byte in which they differ.
const BEFORE: usize = 40;

// The URI of the head at the front of the buffer. Its fields go as far as its empty line, so that what lies behind the head is not looked at.
fn uri_of(head: &[u8]) -> &[u8] {
    let line = text::line_end(head, 0);
    match fields::read_fields(head, line.saturating_add(2).min(head.len())) {
        Some(table) => fields::value_of(head, table, b"x-ouinet-uri"),
        None => &head[..0],
    }
}

// From which byte on both are shown, so that it is seen where they differ.
fn first_shown(asked: &[u8], got: &[u8]) -> usize {
    if (asked.len() <= SHOWN) & (got.len() <= SHOWN) {
        return 0;
    }
    let alike = asked.iter().zip(got).take_while(|(a, b)| a == b).count();
    alike.saturating_sub(BEFORE)
}

// A URI from a byte on. It may have any bytes, and stands between backticks. A byte that is not printable, and a backtick, which would seem to end
// it, is written by its number, and a backslash, with which such a number begins, twice.
#[derive(Clone, Copy)]
struct Shown<'a> {
    uri: &'a [u8],
    start: usize,
}

impl fmt::Display for Shown<'_> {
    fn fmt<W: fmt::Write>(&self, f: &mut fmt::Formatter<W>) -> fmt::Result {
        let end = self.start.saturating_add(SHOWN).min(self.uri.len());
        if 0 < self.start {
            write!(f, "...")?;
        }
        for b in places::part(self.uri, self.start, end) {
            match *b {
                b'\\' => write!(f, "\\\\")?,
                0..=31 | b'`' | 127..=255 => write!(f, "\\x{b:02x}")?,
                _ => write!(f, "{}", char::from(*b))?,
            }
        }
        if end < self.uri.len() {
            write!(f, "...")?;
        }
        Ok(())
    }
}

// One line on standard error after the refusal, with the URI that was asked for and the head's, which still lies in its buffer.
pub fn tell(rt: &HostRuntime, r: Reader, head: &[u8], asked: &[u8]) {
    if !matches!(r.phase, Phase::Refused(OTHER_URI)) {
        return;
    }
    let got = uri_of(head);
    let start = first_shown(asked, got);
    let asked = Shown { uri: asked, start };
    let got = Shown { uri: got, start };
    let _ = eprintln!(rt; "this is another show: asked for `{asked}`, got `{got}`");
}
