// The status of a head, the one that is signed, and the bytes of the body that the answer carries (request #104).
ghost use Rattle.std.specs.Prelude.{◌≡◌, IfErr};
ghost use Rattle.std.specs.Result.{result_ok};
ghost use Rattle.fields.specs.Table.{fields_in};
ghost use Rattle.places.specs.Place.{part_of};
ghost use Rattle.head.specs.Reading.{signed_digits};
ghost use Rattle.head.specs.Steps.{part_kept, part_said, status_read, status_said};

use crate::plain;
use fields::Fields;
use ranges::Extent;

// The status as a number, and the bytes.
#[derive(Clone, Copy)]
pub struct StatusRead {
    pub number: u64,
    pub extent: Extent,
}

// The three digits of the status line.
fn digits(text: &[u8]) -> &[u8]
    ensures { result.now ≡ part_of text.now 9 12 }
{
    places::part(text, 9, 12)
}

// The text of the status that is signed: that of the status line, for which in a part answer another field stands.
pub fn signed_status(text: &[u8], f: Fields) -> &[u8]
    ensures { result.now ≡ signed_digits (part_of text.now 9 12) (fields_in text.now f) }
{
    let said = digits(text);
    if text::same(said, b"206") {
        return fields::value_of(text, f, b"x-ouinet-http-status");
    }
    said
}

// Blocks have `size` bytes. Where a rule of the status is not kept, what it says all the same, with 0 for a status that is none, and the whole body for a
// range that is none.
pub fn read_status(text: &[u8], f: Fields, size: usize) -> Result<StatusRead, StatusRead>
    ensures kept { result_ok result ≡ status_read (part_of text.now 9 12) (fields_in text.now f) size }
    ensures said { IfErr result (λ s. s ≡ status_said (part_of text.now 9 12) (fields_in text.now f) size) }
{
    let number = plain::status_number(signed_status(text, f));
    if text::same(digits(text), b"206") {
        return read_part(text, f, size, number.is_some());
    }
    let said = StatusRead {
        number: number.unwrap_or(0),
        extent: Extent::Whole,
    };
    if number.is_some() {
        Ok(said)
    } else {
        Err(said)
    }
}

// A part answer, by whether the status that it signs is good.
fn read_part(text: &[u8], f: Fields, size: usize, signed: bool) -> Result<StatusRead, StatusRead>
    ensures kept { result_ok result ≡ part_kept signed (fields_in text.now f) size }
    ensures said { IfErr result (λ s. s ≡ part_said (fields_in text.now f) size) }
{
    let range = ranges::read(fields::value_of(text, f, b"content-range"), size);
    let part = StatusRead {
        number: 206,
        extent: range.unwrap_or(Extent::Whole),
    };
    if signed & (range.is_some() & (fields::count_of(text, f, b"content-range") == 1)) {
        Ok(part)
    } else {
        Err(part)
    }
}
