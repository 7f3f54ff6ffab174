// The signing string: two lines that are no fields, then a line for each listed field. Each function writes as far as there is
// room and returns the place after what it wrote.
ghost use Rattle.std.specs.Prelude.{◌≡◌};
ghost use Rattle.places.specs.Writing.{placed, wrote};
ghost use Rattle.signing.specs.Writing.{added_line, lines_in, string_in};

use crate::line;
use fields::Fields;
use names::Names;

// The fields that the list names after its first two, each on a line of its own.
fn put_fields(text: &[u8], f: Fields, list: &[u8], n: Names, out: &mut [u8], from: usize) -> usize
    ensures { placed result out.new ≡ wrote out.old from (lines_in text.now f list.now n) }
{
    let mut at = from;
    for i in 2..names::count(n) {
        let start = places::put(out, at, b"\n");
        at = line::put_field(text, f, names::name(list, n, i), out, start);
    }
    at
}

// The whole string, from the front of a buffer that has room for it: the names are those of the list in the text, the first two values
// the digits of the status and of `created`. The end of what was written.
pub fn put_string(
    text: &[u8],
    f: Fields,
    list: &[u8],
    n: Names,
    digits: &[u8],
    created: &[u8],
    out: &mut [u8],
) -> usize
    ensures { placed result out.new ≡ wrote out.old 0 (string_in text.now f list.now n digits.now created.now) }
{
    let second = line::put_line(out, 0, b"(response-status)", digits);
    let start = places::put(out, second, b"\n");
    let third = line::put_line(out, start, b"(created)", created);
    put_fields(text, f, list, n, out, third)
}

// One line more, after what was written: the line of a field whose value is given.
pub fn put_added(out: &mut [u8], at: usize, name: &[u8], value: &[u8]) -> usize
    ensures { placed result out.new ≡ wrote out.old at (added_line name.now value.now) }
{
    let start = places::put(out, at, b"\n");
    line::put_line(out, start, name, value)
}
