// A trailer: where it ends, and whether its lines are field lines. They are not kept.
ghost use Rattle.std.specs.Prelude.{◌≡◌};
ghost use Rattle.stream.specs.Lines.{are_field_lines, text_lines};
ghost use Rattle.stream.specs.Trailer.{ends_trailer, is_trailer};

use crate::line;
use crate::lines::lines_from;

pub fn ends_trailer(text: &[u8]) -> bool
    ensures { result ≡ ends_trailer text.now }
{
    text::is_crlf(text) | text::ends_twice(text)
}

fn are_field_lines(text: &[u8]) -> bool
    ensures { result ≡ are_field_lines (text_lines text.now) }
{
    lines_from(text, 0).all(|(_, line)| line::field_line(line).is_some())
}

pub fn is_trailer(text: &[u8]) -> bool
    ensures { result ≡ is_trailer text.now }
{
    ends_trailer(text) & are_field_lines(text)
}
