// The value of a signed field and the count of its lines, as they are handed out once the head is accepted. Names are compared without case.
ghost use Rattle.std.specs.Prelude.{◌≡◌};
ghost use Rattle.fields.specs.Table.{fields_in};
ghost use Rattle.stream.specs.Fields.{values_of};
ghost use Rattle.handing.specs.Handing.{accepted_head, fields_out, handed_count, handed_value};

use fields::Fields;
use limits::HEAD_LIMIT;

// The value of the field, of its first line if it has several: that part of the head buffer, whose first `accepted` bytes are the accepted
// head. Empty for a field that is not signed, before a head is accepted, and in a buffer that is too short.
pub fn field_part<'a>(head: &'a [u8], accepted: usize, name: &[u8]) -> &'a [u8]
    ensures { result.now ≡ handed_value head.now accepted name.now }
{
    let text = accepted_head(head, accepted);
    fields::value_of(text, signed_fields(text, name), name)
}

// How many lines of the accepted head are of that field; 0 where it has no value to hand out.
pub fn field_count(head: &[u8], accepted: usize, name: &[u8]) -> usize
    ensures { result ≡ handed_count head.now accepted name.now }
{
    let text = accepted_head(head, accepted);
    fields::count_of(text, signed_fields(text, name), name)
}

// The accepted head: no bytes, which are no head, where the buffer is too short.
#[tactic(auto, unfolding(crate::specs::Handing::accepted_head))]
pub fn accepted_head(head: &[u8], accepted: usize) -> &[u8]
    ensures { result.now ≡ accepted_head head.now accepted }
{
    if (head.len() < HEAD_LIMIT) | (head.len() < accepted) {
        return &head[..0];
    }
    &head[..accepted]
}

// The fields of a good head that signs the name; else none.
fn signed_fields(text: &[u8], name: &[u8]) -> Fields
    ensures { values_of name.now (fields_in text.now result) ≡ values_of name.now (fields_out text.now) }
{
    let Ok(head) = head::read(text) else {
        return fields::none();
    };
    let signed = head.signed;
    let sig0 = signed.sig0;
    let list = places::part(text, sig0.names_start, sig0.names_end);
    let given = names::among(list, signed.names, name, 2);
    if given { head.fields } else { fields::none() }
}
