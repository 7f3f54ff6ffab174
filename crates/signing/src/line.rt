// One line of the signing string: a name in lower case, colon, space, value; and the value of a field, which may be repeated. Each function
// writes as far as there is room and returns the place after what it wrote.
ghost use Rattle.std.specs.Prelude.{◌≡◌};
ghost use Rattle.fields.specs.Table.{fields_in};
ghost use Rattle.stream.specs.Bytes.{lowered};
ghost use Rattle.stream.specs.Signing.{joined_value};
ghost use Rattle.places.specs.Writing.{placed, wrote};
ghost use Rattle.signing.specs.Writing.{label_of, line_of};

use fields::Fields;

fn put_lower(out: &mut [u8], at: usize, bytes: &[u8]) -> usize
    ensures { placed result out.new ≡ wrote out.old at (lowered bytes.now) }
{
    let room = bytes.len().min(out.len().saturating_sub(at));
    for i in 0..room {
        out[at + i] = text::lower(bytes[i]);
    }
    at + room
}

// What stands before the value.
fn put_label(out: &mut [u8], at: usize, name: &[u8]) -> usize
    ensures { placed result out.new ≡ wrote out.old at (label_of name.now) }
{
    let colon = put_lower(out, at, name);
    places::put(out, colon, b": ")
}

pub(crate) fn put_line(out: &mut [u8], at: usize, name: &[u8], value: &[u8]) -> usize
    ensures { placed result out.new ≡ wrote out.old at (line_of name.now value.now) }
{
    let start = put_label(out, at, name);
    places::put(out, start, value)
}

// The values of all fields of that name, in their order, with comma and space between.
fn put_values(text: &[u8], f: Fields, name: &[u8], out: &mut [u8], from: usize) -> usize
    ensures { placed result out.new ≡ wrote out.old from (joined_value name.now (fields_in text.now f)) }
{
    let mut at = from;
    let mut first = true;
    for e in f.used() {
        if fields::is_named(text, *e, name) {
            if !first {
                at = places::put(out, at, b", ");
            }
            at = places::put(out, at, e.value_in(text));
            first = false;
        }
    }
    at
}

// The line of a field of the head.
pub(crate) fn put_field(text: &[u8], f: Fields, name: &[u8], out: &mut [u8], at: usize) -> usize
    ensures { placed result out.new ≡ wrote out.old at (line_of name.now (joined_value name.now (fields_in text.now f))) }
{
    let start = put_label(out, at, name);
    put_values(text, f, name, out, start)
}
