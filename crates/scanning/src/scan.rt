// The loop: a state for what is to come, and how many bytes agreed with it so far.
ghost use Rattle.std.specs.Prelude.{◌≡◌};
ghost use Rattle.scanner.specs.Form.{may_end_form, step_form};
ghost use Rattle.scanning.specs.States.{form_at, meant, scanned};

use crate::state::{State, end_or};
use crate::{chunk_steps, field_steps};
use classes::Class;
use places::Checked;

// Kept (DESIGN-PASS 7): what is to come is data, for the proof as for the loop, and the match leaves none out.
#[tactic(auto, using(crate::proofs::StepLaws::meant_if, crate::proofs::StepLaws::return_arm, crate::proofs::StepLaws::line_arm, crate::proofs::StepLaws::lines_arm, crate::proofs::StepLaws::field_arm, crate::proofs::StepLaws::field_name_arm, crate::proofs::StepLaws::value_arm, crate::proofs::StepLaws::name_arm, crate::proofs::StepLaws::name_rest_arm), unfolding(classes::specs::Class::class_of, scanner::specs::Form::step_form))]
fn step(s: State, b: u8) -> Option<State>
    ensures { meant result ≡ step_form (form_at s) b }
{
    match s {
        State::Line => classes::is_in(Class::Hex, b).then_some(State::Digits(7)),
        State::Digits(n) => chunk_steps::digits(n, b),
        State::Mark(k) => chunk_steps::mark(k, b),
        State::Sig(k) => chunk_steps::sig(k, b),
        State::Hash(k) => chunk_steps::hash(k, b),
        State::Letters(n) => chunk_steps::letters(n, b),
        State::Pads => (b == b'=').then_some(State::Pad),
        State::Pad => (b == b'=').then_some(State::Return),
        State::Return => (b == b'\r').then_some(State::LineFeed(false)),
        State::Version(follows, k) => field_steps::version(follows, k, b),
        State::Status(follows, n) => field_steps::status(follows, n, b),
        State::Lines => end_or(
            b == b'\r',
            State::LineFeed(false),
            classes::is_in(Class::Tchar, b),
            State::FieldName(true),
        ),
        State::Field => classes::is_in(Class::Tchar, b).then_some(State::FieldName(false)),
        State::FieldName(follows) => end_or(
            b == b':',
            State::Value(follows),
            classes::is_in(Class::Tchar, b),
            State::FieldName(follows),
        ),
        State::Value(follows) => end_or(
            b == b'\r',
            State::LineFeed(follows),
            classes::is_in(Class::Text, b),
            State::Value(follows),
        ),
        State::LineFeed(follows) => field_steps::line_feed(follows, b),
        State::Name => classes::is_in(Class::Tchar, b).then_some(State::NameRest),
        State::NameRest => classes::is_in(Class::Tchar, b).then_some(State::NameRest),
        State::End => None,
    }
}

#[tactic(auto, using(crate::proofs::StepLaws::no_end), unfolding(scanner::specs::Form::may_end_form))]
fn may_end(s: State) -> bool
    ensures { result ≡ may_end_form (form_at s) }
{
    matches!(s, State::NameRest | State::End)
}

#[tactic(auto, using(crate::proofs::LoopLaws::on_start, crate::proofs::LoopLaws::turn_to_lem, crate::proofs::LoopLaws::turn_off, crate::proofs::LoopLaws::turn_end))]
pub(crate) fn scan(from: State, text: &[u8]) -> Checked
    ensures { result ≡ scanned (form_at from) text.now }
{
    let mut at = from;
    for (i, b) in text.iter().enumerate() {
        let Some(next) = step(at, *b) else {
            return Checked { good: false, at: i };
        };
        at = next;
    }
    Checked {
        good: may_end(at),
        at: text.len(),
    }
}
