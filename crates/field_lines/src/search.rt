// The fields of a trailer by their name: how many there are, and the first one's value. A trailer may have thousands of lines, so there is no table
// of them: each search goes over the lines.
ghost use Rattle.std.specs.Prelude.{true, ◌&&◌, ◌≡◌};
ghost use Rattle.stream.specs.Bytes.{same_name};
ghost use Rattle.stream.specs.Fields.{count_of, value_of};
ghost use Rattle.stream.specs.Lines.{are_field_lines, field_of, fields_of, is_field_line, text_lines};

use crate::line;
use crate::lines::lines_from;

// Whether a line is a field line of that name.
fn is_named(line: &[u8], name: &[u8]) -> bool
    ensures { result ≡ is_field_line line.now && same_name name.now (field_of line.now).name }
{
    line::field_line(line).is_some_and(|e| text::same_name(name, e.name_in(line)))
}

// The value of a field line.
fn value(line: &[u8]) -> &[u8]
    ensures { is_field_line line.now ≡ true → result.now ≡ (field_of line.now).value }
{
    line::field_line(line).map_or(&[], |e| e.value_in(line))
}

// How many fields of that name there are, if all lines are field lines.
pub fn count_in(text: &[u8], name: &[u8]) -> usize
    ensures { are_field_lines (text_lines text.now) ≡ true → result ≡ count_of name.now (fields_of (text_lines text.now)) }
{
    lines_from(text, 0)
        .filter(|(_, line)| is_named(line, name))
        .count()
}

// The value of the first of them, empty where there is none, if all lines are field lines.
pub fn value_in<'a>(text: &'a [u8], name: &[u8]) -> &'a [u8]
    ensures { are_field_lines (text_lines text.now) ≡ true → result.now ≡ value_of name.now (fields_of (text_lines text.now)) }
{
    lines_from(text, 0)
        .find(|(_, line)| is_named(line, name))
        .map_or(&[], |(_, line)| value(line))
}
