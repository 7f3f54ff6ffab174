// A head judged: its fault, or the question that it asks, with the signing string written into a lent buffer.
#![tactic(auto)]

ghost use Rattle.std.proofs.Math.Option.{none};
ghost use Rattle.std.specs.Prelude.{◌≡◌, ◌≤◌, length, Ok};
ghost use Rattle.octets.specs.Choice.{pick};
ghost use Rattle.fields.specs.Table.{fields_in};
ghost use Rattle.head.specs.Reading.{Says};
ghost use Rattle.ring.specs.Keys.{found_of, ring_of, terms_of};
ghost use Rattle.stream.specs.Bytes.{same};
ghost use Rattle.stream.specs.Fields.{value_of};
ghost use Rattle.stream.specs.Head.{head_of};
ghost use Rattle.stream.specs.Ring.{found};
ghost use Rattle.stream.specs.Signatures.{uri_name};
ghost use Rattle.refusals.specs.Refusals.{refusal_of};
ghost use Rattle.stream.specs.Places.{head_place};
ghost use Rattle.judging.specs.Judgement.{asked, head_judged, judged};

use fields::Fields;
use head::{HeadRead, Signed};
use ranges::Extent;
use refusals::Refusal;
use ring::KeyRing;

// A head that is accepted if `signature` is the signature of the string whose `length` bytes were written: the status, the size of a block, the
// bytes of the body that the answer carries, the number of the key's record, and the id, the first `id_length` bytes of `id`.
// Kept (DESIGN-PASS 6): the reader has no heap: the id as `Injection` has it.
#[derive(Clone, Copy)]
pub struct Asked {
    pub status: u64,
    pub size: usize,
    pub extent: Extent,
    pub key: usize,
    pub id: [u8; 64],
    pub id_length: usize,
    pub signature: [u8; 64],
    pub length: usize,
}

// The fault of a head; or its question, written from the front of the buffer, which changes nowhere else.
#[tactic(auto, using(crate::proofs::JudgeLaws::judged_broken, crate::proofs::JudgeLaws::judged_other, crate::proofs::JudgeLaws::judged_untrusted, crate::proofs::JudgeLaws::judged_short, crate::proofs::JudgeLaws::judged_asked))]
pub fn judge(text: &[u8], ring: KeyRing, uri: &[u8], question: &mut [u8]) -> Result<Asked, Refusal>
    ensures { judged result question.new ≡ head_judged (terms_of ring uri.now) text.now question.old }
{
    let head = match head::read(text) {
        Ok(head) => head,
        Err(number) => return Err(refused(text, number)),
    };
    if !is_asked_for(text, head.fields, uri) {
        return Err(refused(text, 16));
    }
    let Some(key) = trusted(ring, head.signed) else {
        return Err(refused(text, 12));
    };
    if question.len() < text.len() {
        return Err(refused(text, 3));
    }
    Ok(ask(text, head, key, question))
}

// The place is that of the head's text.
// Kept (DESIGN-PASS 1): the number goes into a `Refusal`, which has any.
fn refused(text: &[u8], number: u8) -> Refusal
    ensures { result ≡ refusal_of number (head_place text.now) }
{
    refusals::of_section(number, scanning::head_place(text))
}

// Whether the head's URI is the one that was asked for, byte by byte.
fn is_asked_for(text: &[u8], f: Fields, uri: &[u8]) -> bool
    ensures { result ≡ same (value_of uri_name (fields_in text.now f)) uri.now }
{
    fields::value_of(text, f, b"x-ouinet-uri") == uri
}

// The record that trusts the key of `X-Ouinet-Sig0`, if the key of `X-Ouinet-BSigs` is the same.
#[tactic(auto, using(ring::proofs::SearchLaws::same_is))]
fn trusted(ring: KeyRing, s: Signed) -> Option<usize>
    ensures { found_of result ≡ pick (same s.bsigs.key s.sig0.key) (found s.sig0.key s.injection.time (ring_of ring)) none }
{
    let key = s.sig0.key;
    if s.bsigs.key == key {
        ring::find(ring, key, s.injection.time)
    } else {
        None
    }
}

// The question of a head that breaks no rule, with a buffer that has room for it.
fn ask(text: &[u8], head: HeadRead, key: usize, question: &mut [u8]) -> Asked
    requires says { Says text.now head }
    requires text_in_bounds { length text.now ≤ length question.old }
    ensures { judged (Ok result) question.new ≡ asked key (head_of text.now) question.old }
{
    let table = head.fields;
    let signed = head.signed;
    let sig0 = signed.sig0;
    let list = places::part(text, sig0.names_start, sig0.names_end);
    let created = places::part(text, sig0.created_start, sig0.created_end);
    let status = head::signed_status(text, table);
    let length = signing::put_string(text, table, list, signed.names, status, created, question);
    let id = signed.injection.id;
    let signature = sig0.signature;
    Asked {
        status: head.status,
        size: signed.bsigs.size,
        extent: head.extent,
        key,
        id,
        id_length: signed.injection.id_length,
        signature,
        length,
    }
}
