// The names that Sig1 lists, held against those of Sig0. They are compared as texts, so that there is no table of the longer list.
ghost use Rattle.std.specs.Prelude.{◌&&◌, not, ◌++◌, ◌≡◌};
ghost use Rattle.names.specs.NameList.{names_in};
ghost use Rattle.stream.specs.Ends.{added_names, data_size_name, digest_name, same_names};
ghost use Rattle.stream.specs.Fields.{among};
ghost use Rattle.stream.specs.Signatures.{split_names};

use names::Names;

// Whether a list is the other with the two names of the body added at its end.
pub(crate) fn is_extended(list: &[u8], longer: &[u8]) -> bool
    ensures { result ≡ same_names (split_names longer.now) (split_names list.now ++ added_names) }
{
    let n = list.len();
    let front = text::same_name(places::part(longer, 0, n), list);
    let added = places::part(longer, n, longer.len());
    front & text::same_name(added, b" digest x-ouinet-data-size")
}

// Whether neither of the two is listed already.
pub(crate) fn is_free(list: &[u8], n: Names) -> bool
    ensures { result ≡ not (among digest_name (names_in list.now n)) && not (among data_size_name (names_in list.now n)) }
{
    let digest = names::among(list, n, b"digest", 0);
    let size = names::among(list, n, b"x-ouinet-data-size", 0);
    !digest & !size
}
