// A byte of a head or a trailer.
ghost use Rattle.std.specs.Prelude.{◌≡◌};
ghost use Rattle.scanner.specs.Form.{step_form};
ghost use Rattle.scanning.specs.States.{feed_form, meant, status_digits_form, version_form};

use crate::state::State;
use classes::Class;

#[tactic(auto, using(crate::proofs::StepLaws::status_last, crate::proofs::StepLaws::status_more, crate::proofs::StepLaws::meant_if), unfolding(classes::specs::Class::class_of))]
pub(crate) fn status(follows: bool, n: u8, b: u8) -> Option<State>
    ensures { meant result ≡ step_form (status_digits_form follows n) b }
{
    if n == 0 {
        return (b == b' ').then_some(State::Value(follows));
    }
    classes::is_in(Class::Digit, b).then_some(State::Status(follows, n - 1))
}

#[tactic(auto, using(crate::proofs::StepLaws::version_over, crate::proofs::StepLaws::version_more, crate::proofs::StepLaws::meant_if))]
pub(crate) fn version(follows: bool, k: u8, b: u8) -> Option<State>
    ensures { meant result ≡ step_form (version_form follows k) b }
{
    match b"HTTP/1.1 ".get(usize::from(k)) {
        Some(next) => (b == *next).then_some(State::Version(follows, k + 1)),
        None => status(follows, 3, b),
    }
}

#[tactic(auto, using(crate::proofs::StepLaws::feed_step, crate::proofs::StepLaws::meant_if))]
pub(crate) fn line_feed(follows: bool, b: u8) -> Option<State>
    ensures { meant result ≡ step_form (feed_form follows) b }
{
    (b == b'\n').then_some(if follows { State::Lines } else { State::End })
}
