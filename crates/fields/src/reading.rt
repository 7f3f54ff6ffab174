// The field lines of a head, as a table.
ghost use Rattle.std.specs.Prelude.{◌≤◌, ◌<◌, ◌+◌, ◌^◌, ◌≡◌, drop, length};
ghost use Rattle.stream.specs.Lines.{text_lines};
ghost use Rattle.fields.specs.Answers.{ReadsFields};

use crate::table::Fields;
use field_lines::Entry;
use limits::FIELD_LIMIT;
use places::Span;

// A part of a line that begins at `start`, by its places in the whole text.
fn moved(part: Span, start: usize) -> Span
    requires { (part.start ≤ part.end) × (start + part.end < 2 ^ 64) }
    ensures { result ≡ record { start = start + part.start; end = start + part.end } }
{
    Span {
        start: start + part.start,
        end: start + part.end,
    }
}

// The table of the lines from `from` on, up to an empty line or the end of the text, if they are field lines, and no more than a head may have.
pub fn read_fields(text: &[u8], from: usize) -> Option<Fields>
    ensures { ReadsFields text.now (text_lines (drop from text.now)) result }
{
    let mut fields = Fields {
        count: 0,
        entries: [Entry::none(); FIELD_LIMIT],
    };
    for (start, line) in field_lines::lines_from(text, from) {
        let e = field_lines::field_line(line)?;
        if fields.count == FIELD_LIMIT {
            return None;
        }
        fields.entries[fields.count] = Entry {
            name: moved(e.name, start),
            value: moved(e.value, start),
        };
        fields.count += 1;
    }
    Some(fields)
}
