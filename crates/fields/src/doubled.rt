// Whether two fields of a head have one name that must not be there twice.
ghost use Rattle.std.specs.Prelude.{◌≡◌, [], false, true};
ghost use Rattle.stream.specs.Fields.{is_protected, is_protected_doubled, names_of};
ghost use Rattle.fields.specs.Table.{fields_in};

use crate::lookup;
use crate::table::Fields;
use field_lines::Entry;

// Whether fields of that name may not be repeated.
fn is_protected(name: &[u8]) -> bool
    ensures { result ≡ is_protected name.now }
{
    let ours = text::same_name(places::part(name, 0, 9), b"x-ouinet-");
    let sized = text::same_name(name, b"content-length");
    let coded = text::same_name(name, b"transfer-encoding");
    ours | (sized | coded)
}

// The fields that a name is compared with, of those after its own: of a name that is not protected, as most are not, none.
fn compared<'a>(name: &[u8], others: &'a [Entry]) -> &'a [Entry]
    ensures protected { is_protected name.now ≡ true → result.now ≡ others.now }
    ensures free { is_protected name.now ≡ false → result.now ≡ [] }
{
    if is_protected(name) {
        others
    } else {
        &others[..0]
    }
}

// Every pair of names is compared, up to the first that is refused.
pub fn is_doubled(text: &[u8], f: Fields) -> bool
    ensures { result ≡ is_protected_doubled (names_of (fields_in text.now f)) }
{
    let mut left = f.used();
    'pairs: while let Some((first, others)) = left.split_first() {
        let name = first.name_in(text);
        let mut rest = compared(name, others);
        while let Some((other, more)) = rest.split_first() {
            if lookup::is_named(text, *other, name) {
                break 'pairs;
            }
            rest = more;
        }
        left = others;
    }
    // Some are left where a pair ended the search.
    !left.is_empty()
}
