// The lines of a head: its end, the status line, the field lines, and that no protected name is there twice.
ghost use Rattle.head.specs.Steps.{ReadsLines};

use fields::Fields;

// The table of the fields, if the lines keep the rules of lines.
pub fn read_lines(text: &[u8]) -> Option<Fields>
    ensures { ReadsLines text.now result }
{
    let end = text::line_end(text, 0);
    let status = field_lines::is_status_line(places::part(text, 0, end));
    if !(text::ends_twice(text) & status) {
        return None;
    }
    let table = fields::read_fields(text, end + 2)?;
    if fields::is_doubled(text, table) {
        return None;
    }
    Some(table)
}
