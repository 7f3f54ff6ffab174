// The first broken rule of an end that is claimed and was read.
ghost use Rattle.std.specs.Prelude.{◌≡◌, Some};
ghost use Rattle.end_fields.specs.Found.{AreLines, both_in};
ghost use Rattle.end_fields.specs.Reading.{ReadsEnd};
ghost use Rattle.head.specs.Reading.{Says};
ghost use Rattle.ends.specs.Steps.{fault_after, fault_by, number_of, read_fault};

use crate::lists;
use end_fields::EndRead;
use head::HeadRead;

// The list, whose rules have one number; then the size, the digest and the key, in this order.
fn fault(listed: bool, sized: bool, hashed: bool, signed: bool) -> Option<u8>
    ensures { result ≡ number_of (fault_by listed sized hashed signed) }
{
    if !listed {
        return Some(13);
    }
    if !sized {
        return Some(14);
    }
    if !hashed {
        return Some(15);
    }
    if !signed {
        return Some(12);
    }
    None
}

// By what was read, and whether the list keeps its rules: of a body of `total` bytes with that hash, and a head with that key.
#[tactic(auto, using(ring::proofs::SearchLaws::same_is), unfolding(crate::specs::Steps::read_fault))]
fn read_fault(e: EndRead, listed: bool, total: u64, hash: [u8; 32], key: [u8; 32]) -> Option<u8>
    ensures { result ≡ number_of (read_fault e listed total hash key) }
{
    let hashed = e.digest == hash;
    let signed = e.sig1.key == key;
    fault(listed, e.size == total, hashed, signed)
}

pub(crate) fn find<'a>(
    text: &'a [u8],
    head: HeadRead,
    trailer: &'a [u8],
    e: EndRead,
    total: u64,
    hash: [u8; 32],
) -> Option<u8>
    requires says { Says text.now head }
    requires are_lines { AreLines trailer.now }
    requires reads_end { ReadsEnd (both_in text.now head.fields trailer.now) (Some e) }
    ensures { result ≡ number_of (fault_after text.now trailer.now total hash) }
{
    let signed = head.signed;
    let sig0 = signed.sig0;
    let sig1 = e.sig1;
    let list = places::part(text, sig0.names_start, sig0.names_end);
    let value = end_fields::value_of(text, head.fields, trailer, b"x-ouinet-sig1");
    let longer = places::part(value, sig1.names_start, sig1.names_end);
    let listed = lists::is_extended(list, longer) & lists::is_free(list, signed.names);
    let key = sig0.key;
    read_fault(e, listed, total, hash, key)
}
