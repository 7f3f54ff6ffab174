// The version, the numbers of the statuses, and the fields that are compared with fixed text or must be there, or not there.
ghost use Rattle.std.specs.Prelude.{◌≡◌};
ghost use Rattle.fields.specs.Table.{fields_in};
ghost use Rattle.stream.specs.Rule.{first_broken};
ghost use Rattle.head.specs.Steps.{version_rules, status_number, is_plain};

use fields::Fields;

// 4 where no version is given, 5 where it is another than 4, and 0 where it is 4.
pub fn version_fault(text: &[u8], f: Fields) -> u8
    ensures { result ≡ first_broken (version_rules (fields_in text.now f)) }
{
    if !fields::has(text, f, b"x-ouinet-version") {
        return 4;
    }
    if !text::same(fields::value_of(text, f, b"x-ouinet-version"), b"4") {
        return 5;
    }
    0
}

// The number that three digits write, if it is a status that may be signed.
pub fn status_number(digits: &[u8]) -> Option<u64>
    ensures { result ≡ status_number digits.now }
{
    if text::same(digits, b"200") {
        return Some(200);
    }
    if text::same(digits, b"301") {
        return Some(301);
    }
    if text::same(digits, b"302") {
        return Some(302);
    }
    if text::same(digits, b"307") {
        return Some(307);
    }
    None
}

pub fn is_plain(text: &[u8], f: Fields) -> bool
    ensures { result ≡ is_plain (fields_in text.now f) }
{
    let chunked = text::same_name(fields::value_of(text, f, b"transfer-encoding"), b"chunked");
    let sized = fields::has(text, f, b"content-length");
    let uri = fields::value_of(text, f, b"x-ouinet-uri");
    chunked & (!sized & (1 <= uri.len()))
}
