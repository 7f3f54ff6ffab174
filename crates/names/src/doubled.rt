// Whether a list has one name twice.
ghost use Rattle.std.specs.Prelude.{◌≡◌};
ghost use Rattle.stream.specs.Fields.{is_doubled};
ghost use Rattle.names.specs.NameList.{names_in};

use crate::list;
use crate::reading::Names;

// Every pair of names is compared, up to the first that are the same.
pub fn is_doubled(text: &[u8], n: Names) -> bool
    ensures { result ≡ is_doubled (names_in text.now n) }
{
    let mut left = n.used();
    'pairs: while let Some((first, others)) = left.split_first() {
        let name = list::name_at(text, *first);
        let mut rest = others;
        while let Some((other, more)) = rest.split_first() {
            if text::same_name(name, list::name_at(text, *other)) {
                break 'pairs;
            }
            rest = more;
        }
        left = others;
    }
    // Some are left where a pair ended the search.
    !left.is_empty()
}
