// The question over Sig1: the signing string of the head, with Sig1's own time, and two lines more.
ghost use Rattle.std.specs.Prelude.{◌≡◌, ◌≤◌, length, Ok, Some};
ghost use Rattle.end_fields.specs.Found.{AreLines, both_in};
ghost use Rattle.end_fields.specs.Reading.{ReadsEnd};
ghost use Rattle.head.specs.Reading.{Says};
ghost use Rattle.ends.specs.Judgement.{judged};
ghost use Rattle.ends.specs.Steps.{Faultless, asked_after};

use crate::trailer::Asked;
use end_fields::EndRead;
use head::HeadRead;

// Of a head and an end without fault, with a buffer that has room for it.
pub(crate) fn ask<'a>(
    text: &'a [u8],
    head: HeadRead,
    trailer: &'a [u8],
    e: EndRead,
    question: &mut [u8],
) -> Asked
    requires says { Says text.now head }
    requires are_lines { AreLines trailer.now }
    requires reads_end { ReadsEnd (both_in text.now head.fields trailer.now) (Some e) }
    requires faultless { Faultless text.now trailer.now }
    requires text_in_bounds { length text.now ≤ length question.old }
    ensures { judged (Ok (Some result)) question.new ≡ asked_after text.now trailer.now question.old }
{
    let table = head.fields;
    let signed = head.signed;
    let sig0 = signed.sig0;
    let sig1 = e.sig1;
    let list = places::part(text, sig0.names_start, sig0.names_end);
    let digits = places::part(text, 9, 12);
    let value = end_fields::value_of(text, table, trailer, b"x-ouinet-sig1");
    let created = places::part(value, sig1.created_start, sig1.created_end);
    let third = signing::put_string(text, table, list, signed.names, digits, created, question);
    let digest = end_fields::value_of(text, table, trailer, b"digest");
    let next = signing::put_added(question, third, b"digest", digest);
    let size = end_fields::value_of(text, table, trailer, b"x-ouinet-data-size");
    let length = signing::put_added(question, next, b"x-ouinet-data-size", size);
    let signature = sig1.signature;
    Asked { signature, length }
}
