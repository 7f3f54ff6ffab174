// One line by itself: a field line, and the status line.
ghost use Rattle.std.specs.Prelude.{◌≡◌};
ghost use Rattle.stream.specs.Lines.{is_status_line};
ghost use Rattle.field_lines.specs.Reading.{ReadsField};

use crate::entry::Entry;
use classes::Class;
use places::Span;

// Where the name and the value of a field line lie; nowhere if the line is none.
pub fn field_line(line: &[u8]) -> Option<Entry>
    ensures { ReadsField line.now line.now result }
{
    let colon = classes::run_end(line, 0, Class::Tchar);
    if colon == 0 || !text::starts_with(line, colon, b":") {
        return None;
    }
    let start = colon + 1;
    if classes::run_end(line, start, Class::Text) < line.len() {
        return None;
    }
    let value = classes::trim(&line[start..]);
    Some(Entry {
        name: Span {
            start: 0,
            end: colon,
        },
        value: Span {
            start: start + value.start,
            end: start + value.end,
        },
    })
}

// After the nine bytes of the version and its space the three digits stand at 9 to 11.
pub fn is_status_line(line: &[u8]) -> bool
    ensures { result ≡ is_status_line line.now }
{
    text::starts_with(line, 0, b"HTTP/1.1 ")
        && classes::run_end(line, 9, Class::Digit) == 12
        && text::starts_with(line, 12, b" ")
        && line.len() <= classes::run_end(line, 13, Class::Text)
}
