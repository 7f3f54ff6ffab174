// A trailer judged: its text, and the end of the show that it and the head claim.
ghost use Rattle.std.specs.Prelude.{◌≡◌};
ghost use Rattle.end_fields.specs.Found.{AreLines, both_in};
ghost use Rattle.head.specs.Reading.{Says};
ghost use Rattle.ranges.specs.Extent.{range_in};
ghost use Rattle.stream.specs.Ends.{is_checked};
ghost use Rattle.ends.specs.Judgement.{judged, trailer_judged};
ghost use Rattle.ends.specs.Steps.{answered_after};

use crate::{asking, faults};
use head::HeadRead;
use ranges::Extent;
use refusals::Refusal;

// An end that is complete if `signature` is the signature of the string whose `length` bytes were written.
#[derive(Clone, Copy)]
pub struct Asked {
    pub signature: [u8; 64],
    pub length: usize,
}

// The trailer after that head and a body of `total` bytes with that SHA-256. Nothing is asked where there is nothing to check, and the stream is
// closed. The question is written from the front of the buffer, which changes nowhere else.
pub fn judge<'a>(
    head: &'a [u8],
    trailer: &'a [u8],
    total: u64,
    hash: [u8; 32],
    question: &mut [u8],
) -> Result<Option<Asked>, Refusal>
    ensures { judged result question.new ≡ trailer_judged head.now trailer.now total hash question.old }
{
    if !field_lines::is_trailer(trailer) {
        let at = scanning::trailer_place(trailer);
        return Err(Refusal { number: 6, at });
    }
    let Ok(read) = head::read(head) else {
        return Err(refusals::plain(13));
    };
    if !is_checked(head, read, trailer) {
        return Ok(None);
    }
    answer(head, read, trailer, total, hash, question)
}

// Whether there is an end to check: of a part answer nothing is checked, whatever its fields claim (request #104).
fn is_checked<'a>(text: &'a [u8], head: HeadRead, trailer: &'a [u8]) -> bool
    ensures { AreLines trailer.now → result ≡ is_checked (range_in head.extent) (both_in text.now head.fields trailer.now) }
{
    match head.extent {
        Extent::Whole => end_fields::is_claimed(text, head.fields, trailer),
        Extent::Part { .. } => false,
    }
}

// The end that is claimed: its fault, or its question.
fn answer<'a>(
    text: &'a [u8],
    head: HeadRead,
    trailer: &'a [u8],
    total: u64,
    hash: [u8; 32],
    question: &mut [u8],
) -> Result<Option<Asked>, Refusal>
    requires says { Says text.now head }
    requires are_lines { AreLines trailer.now }
    ensures { judged result question.new ≡ answered_after text.now trailer.now total hash question.old }
{
    let Some(e) = end_fields::read_end(text, head.fields, trailer).all() else {
        return Err(refusals::plain(13));
    };
    if let Some(fault) = faults::find(text, head, trailer, e, total, hash) {
        return Err(refusals::plain(fault));
    }
    if question.len() < text.len() {
        return Err(refusals::plain(13));
    }
    Ok(Some(asking::ask(text, head, trailer, e, question)))
}
