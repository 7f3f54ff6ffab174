// The names one by one.
ghost use Rattle.std.specs.Prelude.{[], ◌≡◌, min, drop, get_or};
ghost use Rattle.stream.specs.Fields.{among as isAmong};
ghost use Rattle.stream.specs.Limits.{name_limit};
ghost use Rattle.names.specs.NameList.{names_in, span_bytes};

use crate::reading::Names;
use limits::NAME_LIMIT;
use places::Span;

// How many names there are.
pub fn count(n: Names) -> usize
    ensures { result ≡ min n.count name_limit }
{
    n.count.min(NAME_LIMIT)
}

// The name that lies there.
pub fn name_at(list: &[u8], span: Span) -> &[u8]
    ensures { result.now ≡ span_bytes list.now span }
{
    places::part(list, span.start, span.end)
}

// Name `i`, counted from 0; empty where there is none.
pub fn name(list: &[u8], n: Names, i: usize) -> &[u8]
    ensures { result.now ≡ get_or (names_in list.now n) i [] }
{
    match n.used().get(i) {
        Some(span) => name_at(list, *span),
        None => &[],
    }
}

// Whether the name is one of the list's, from name `from` on.
pub fn among(list: &[u8], n: Names, wanted: &[u8], from: usize) -> bool
    ensures { result ≡ isAmong wanted.now (drop from (names_in list.now n)) }
{
    n.used()
        .iter()
        .skip(from)
        .any(|span| text::same_name(wanted, name_at(list, *span)))
}
