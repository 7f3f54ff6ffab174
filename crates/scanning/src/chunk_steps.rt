// A byte of a chunk line.
ghost use Rattle.std.specs.Prelude.{◌≡◌};
ghost use Rattle.base64_text.specs.Base64.{is_base64_letter};
ghost use Rattle.scanner.specs.Form.{step_form};
ghost use Rattle.stream.specs.Forms.{is_multiple};
ghost use Rattle.scanning.specs.States.{digits_form, hash_form, letters_form, mark_form, meant, sig_form};

use crate::state::{State, end_or};
use classes::Class;

fn is_letter(b: u8) -> bool
    ensures { result ≡ is_base64_letter b }
{
    base64_text::value(b) < 64
}

// The letter before `==`: four of its six bits belong to no byte, and are zero.
fn is_last_letter(b: u8) -> bool
    ensures { result ≡ is_multiple 16 b }
{
    let v = base64_text::value(b);
    (v < 64) & (v % 16 == 0)
}

#[tactic(auto, using(crate::proofs::StepLaws::digits_mark, crate::proofs::StepLaws::digits_return, crate::proofs::StepLaws::digits_over, crate::proofs::StepLaws::digits_more, crate::proofs::StepLaws::meant_if), unfolding(classes::specs::Class::class_of))]
pub(crate) fn digits(n: u8, b: u8) -> Option<State>
    ensures { meant result ≡ step_form (digits_form n) b }
{
    if b == b';' {
        return Some(State::Mark(1));
    }
    if b == b'\r' {
        return Some(State::LineFeed(false));
    }
    if n == 0 {
        return None;
    }
    classes::is_in(Class::Hex, b).then_some(State::Digits(n - 1))
}

#[tactic(auto, using(crate::proofs::StepLaws::letters_last, crate::proofs::StepLaws::letters_more, crate::proofs::StepLaws::meant_if))]
pub(crate) fn letters(n: u8, b: u8) -> Option<State>
    ensures { meant result ≡ step_form (letters_form n) b }
{
    if n == 0 {
        return is_last_letter(b).then_some(State::Pads);
    }
    is_letter(b).then_some(State::Letters(n - 1))
}

// Kept (DESIGN-PASS 2): `sig` and `hash` differ in the text, in the state and in the form that the contract names; one function would take all three.
#[tactic(auto, using(crate::proofs::StepLaws::sig_over, crate::proofs::StepLaws::sig_more, crate::proofs::StepLaws::meant_if))]
pub(crate) fn sig(k: u8, b: u8) -> Option<State>
    ensures { meant result ≡ step_form (sig_form k) b }
{
    match b"sig=".get(usize::from(k)) {
        Some(next) => (b == *next).then_some(State::Sig(k + 1)),
        None => letters(85, b),
    }
}

#[tactic(auto, using(crate::proofs::StepLaws::hash_over, crate::proofs::StepLaws::hash_more, crate::proofs::StepLaws::meant_if))]
pub(crate) fn hash(k: u8, b: u8) -> Option<State>
    ensures { meant result ≡ step_form (hash_form k) b }
{
    match b"hash=".get(usize::from(k)) {
        Some(next) => (b == *next).then_some(State::Hash(k + 1)),
        None => letters(85, b),
    }
}

// Their first letters tell the two names apart.
#[tactic(auto, using(crate::proofs::StepLaws::mark_over, crate::proofs::StepLaws::mark_more, crate::proofs::StepLaws::meant_if))]
pub(crate) fn mark(k: u8, b: u8) -> Option<State>
    ensures { meant result ≡ step_form (mark_form k) b }
{
    match b";oui".get(usize::from(k)) {
        Some(next) => (b == *next).then_some(State::Mark(k + 1)),
        None => end_or(b == b's', State::Sig(1), b == b'h', State::Hash(1)),
    }
}
