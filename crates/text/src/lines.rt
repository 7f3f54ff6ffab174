// Lines that CR LF ends: where a line ends, and whether a text ends with one.
ghost use Rattle.std.specs.Prelude.{◌++◌, ◌≡◌, ◌+◌, drop};
ghost use Rattle.stream.specs.Bytes.{same as isSame};
ghost use Rattle.stream.specs.Lines.{crlf, ends_with};
ghost use Rattle.stream.specs.Template.{starts_with};
ghost use Rattle.text.specs.Line.{line_length};

use crate::{same, starts_with};

// Where the line that begins at `from` ends: the first place from there on at which CR LF stands, or the length; `from`
// where that is past the end.
pub fn line_end(s: &[u8], from: usize) -> usize
    ensures { result ≡ from + line_length (drop from s.now) }
{
    for i in from..s.len() {
        if starts_with(s, i, b"\r\n") {
            return i;
        }
    }
    from.max(s.len())
}

pub fn ends_line(s: &[u8]) -> bool
    ensures { result ≡ ends_with crlf s.now }
{
    s.ends_with(b"\r\n")
}

// Whether the last line is empty, as a head's and a trailer's is.
pub fn ends_twice(s: &[u8]) -> bool
    ensures { result ≡ ends_with (crlf ++ crlf) s.now }
{
    s.ends_with(b"\r\n\r\n")
}

pub fn is_crlf(s: &[u8]) -> bool
    ensures { result ≡ isSame s.now crlf }
{
    same(s, b"\r\n")
}
