// The fields of a head and of the trailer after it, by their name. All this is said of a trailer whose lines are field lines.
ghost use Rattle.std.specs.Prelude.{◌≡◌};
ghost use Rattle.stream.specs.Ends.{is_once};
ghost use Rattle.stream.specs.Fields.{has_field, value_of};
ghost use Rattle.end_fields.specs.Found.{AreLines, both_in};

use fields::Fields;

pub fn has(text: &[u8], f: Fields, trailer: &[u8], name: &[u8]) -> bool
    ensures { AreLines trailer.now → result ≡ has_field name.now (both_in text.now f trailer.now) }
{
    fields::has(text, f, name) | (1 <= field_lines::count_in(trailer, name))
}

// Whether there is one field of that name in head and trailer together.
pub fn is_once(text: &[u8], f: Fields, trailer: &[u8], name: &[u8]) -> bool
    ensures { AreLines trailer.now → result ≡ is_once name.now (both_in text.now f trailer.now) }
{
    let before = fields::count_of(text, f, name);
    let after = field_lines::count_in(trailer, name);
    ((before == 1) & (after == 0)) | ((before == 0) & (after == 1))
}

// The head's value, where it has one.
pub fn value_of<'a>(text: &'a [u8], f: Fields, trailer: &'a [u8], name: &[u8]) -> &'a [u8]
    ensures { AreLines trailer.now → result.now ≡ value_of name.now (both_in text.now f trailer.now) }
{
    if fields::has(text, f, name) {
        return fields::value_of(text, f, name);
    }
    field_lines::value_in(trailer, name)
}
