// Fields by their name: whether there is one, the first one's value, and how many there are.
ghost use Rattle.std.specs.Prelude.{◌≡◌, map};
ghost use Rattle.stream.specs.Bytes.{same_name};
ghost use Rattle.stream.specs.Fields.{among, count_of, has_field, names_of, value_of};
ghost use Rattle.field_lines.specs.Entries.{entry_field, entry_name};
ghost use Rattle.fields.specs.Answers.{FindsValue};
ghost use Rattle.fields.specs.Table.{fields_in};

use crate::table::Fields;
use field_lines::Entry;
use places::Span;

// Whether the entry is that of a field of that name.
pub fn is_named(text: &[u8], e: Entry, name: &[u8]) -> bool
    ensures { result ≡ same_name name.now (entry_name text.now e) }
{
    text::same_name(name, e.name_in(text))
}

// Whether a name is one of some fields' names.
pub(crate) fn is_among(text: &[u8], name: &[u8], entries: &[Entry]) -> bool
    ensures { result ≡ among name.now (names_of (map (entry_field text.now) entries.now)) }
{
    entries.iter().any(|e| is_named(text, *e, name))
}

// Where the value of the first field of that name lies, if there is one.
pub fn find(text: &[u8], f: Fields, name: &[u8]) -> Option<Span>
    ensures { FindsValue text.now f name.now result }
{
    let e = f.used().iter().find(|e| is_named(text, **e, name))?;
    Some(places::clip(text, e.value.start, e.value.end))
}

pub fn has(text: &[u8], f: Fields, name: &[u8]) -> bool
    ensures { result ≡ has_field name.now (fields_in text.now f) }
{
    is_among(text, name, f.used())
}

// Empty where there is no such field.
pub fn value_of<'a>(text: &'a [u8], f: Fields, name: &[u8]) -> &'a [u8]
    ensures { result.now ≡ value_of name.now (fields_in text.now f) }
{
    find(text, f, name).map_or(&[], |value| places::part(text, value.start, value.end))
}

// How many fields of that name there are.
pub fn count_of(text: &[u8], f: Fields, name: &[u8]) -> usize
    ensures { result ≡ count_of name.now (fields_in text.now f) }
{
    f.used()
        .iter()
        .filter(|e| is_named(text, **e, name))
        .count()
}
