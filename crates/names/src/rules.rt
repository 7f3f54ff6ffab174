// The rules of the list of names, against the fields of the head.
ghost use Rattle.std.specs.Prelude.{◌≡◌};
ghost use Rattle.fields.specs.Table.{fields_in};
ghost use Rattle.stream.specs.Signatures.{are_fields, is_name_list, listed_fields};
ghost use Rattle.names.specs.NameList.{names_in};

use crate::reading::Names;
use crate::{doubled, list};
use fields::Fields;

// Whether each name after the first two is the name of a field.
fn are_fields(text: &[u8], f: Fields, list: &[u8], n: Names) -> bool
    ensures { result ≡ are_fields (fields_in text.now f) (listed_fields (names_in list.now n)) }
{
    n.used()
        .iter()
        .skip(2)
        .all(|span| fields::has(text, f, list::name_at(list, *span)))
}

pub fn is_list(text: &[u8], f: Fields, list: &[u8], n: Names) -> bool
    ensures { result ≡ is_name_list (fields_in text.now f) (names_in list.now n) }
{
    let single = !doubled::is_doubled(list, n);
    let first = text::same_name(list::name(list, n, 0), b"(response-status)");
    let second = text::same_name(list::name(list, n, 1), b"(created)");
    let there = are_fields(text, f, list, n);
    let version = list::among(list, n, b"x-ouinet-version", 0);
    let uri = list::among(list, n, b"x-ouinet-uri", 0);
    let injection = list::among(list, n, b"x-ouinet-injection", 0);
    let itself = list::among(list, n, b"x-ouinet-sig0", 0);
    single & (first & (second & (there & (version & (uri & (injection & !itself))))))
}
