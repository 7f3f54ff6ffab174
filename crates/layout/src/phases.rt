// A phase as three numbers: its tag, and the two counts that it carries, 0 where it carries none.
ghost use Rattle.std.specs.Prelude.{[], ◌∷◌, ◌≡◌};
ghost use Rattle.layout.specs.State.{tag_of, first_of, second_of, InPhase, phase_of};

use state::Phase;

// The tag, then the first and the second count. That each is a number of 64 bits, and a refusal's of 8, is said beside.
pub(crate) fn numbers(p: Phase) -> [u64; 3]
    ensures { (result ≡ tag_of p ∷ first_of p ∷ second_of p ∷ []) × InPhase p }
{
    match p {
        Phase::Head(n) => [0, n as u64, 0],
        Phase::HeadAsked(n) => [1, n as u64, 0],
        Phase::FirstLine(n) => [2, n as u64, 0],
        Phase::Data { have, size } => [3, have as u64, size as u64],
        Phase::DataEnd { have, size } => [4, have as u64, size as u64],
        Phase::NextLine { have, size } => [5, have as u64, size as u64],
        Phase::BlockAsked { size, next } => [6, size as u64, next as u64],
        Phase::Trailer { have, total } => [7, have as u64, total],
        Phase::EndAsked { have, total } => [10, have as u64, total],
        Phase::Closed(total) => [8, total, 0],
        Phase::Complete(total) => [11, total, 0],
        Phase::Refused(n) => [9, u64::from(n), 0],
    }
}

// The phase of three numbers. A tag that is no phase's gives a last one.
// Kept (DESIGN-PASS 1): the number is one of the bytes that C lends, any of which may be another.
#[tactic(auto, unfolding(crate::specs::State::phase_of))]
pub(crate) fn phase(tag: u64, a: u64, b: u64) -> Phase
    ensures { result ≡ phase_of tag a b }
{
    let n = a as usize;
    let m = b as usize;
    match tag {
        0 => Phase::Head(n),
        1 => Phase::HeadAsked(n),
        2 => Phase::FirstLine(n),
        3 => Phase::Data { have: n, size: m },
        4 => Phase::DataEnd { have: n, size: m },
        5 => Phase::NextLine { have: n, size: m },
        6 => Phase::BlockAsked { size: n, next: m },
        7 => Phase::Trailer { have: n, total: b },
        8 => Phase::Closed(a),
        9 => Phase::Refused((a % 256) as u8),
        10 => Phase::EndAsked { have: n, total: b },
        11 => Phase::Complete(a),
        _ => Phase::Refused(0),
    }
}
