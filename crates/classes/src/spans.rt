// The spaces and tabs at the ends of a text, taken off.
ghost use Rattle.std.specs.Prelude.{◌≡◌};
ghost use Rattle.classes.specs.Span.{span_of};

use crate::{Class, is_in, run_end};
use places::Span;

#[tactic(auto, using(crate::proofs::RunLaws::run_le))]
pub fn trim(s: &[u8]) -> Span
    ensures { result ≡ span_of s.now }
{
    let start = run_end(s, 0, Class::Blank);
    let behind = s[start..]
        .iter()
        .rev()
        .take_while(|b| is_in(Class::Blank, **b))
        .count();
    Span {
        start,
        end: s.len() - behind,
    }
}
