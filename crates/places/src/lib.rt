// Numbers as places in a text, whatever they are: the bytes between two places, and bytes written from a place on.
#![tactic(auto)]

ghost use Rattle.std.specs.Prelude.{◌≡◌, ◌-◌, min, get_or};
ghost use Rattle.places.specs.Place.{Clips, part_of};

mod writing; // bytes written into a buffer

pub use writing::put;

// From `start` up to `end`, which is not part of it.
#[derive(Clone, Copy)]
pub struct Span {
    pub start: usize,
    pub end: usize,
}

// Whether a text is good, and how many of its first bytes some good text also has.
// Kept (DESIGN-PASS 1): the place is told of a good text too, so it is no error's.
#[derive(Clone, Copy)]
pub struct Checked {
    pub good: bool,
    pub at: usize,
}

pub fn least(a: usize, b: usize) -> usize
    ensures { result ≡ min a b }
{
    a.min(b)
}

// The difference, 0 where b is the larger.
pub fn less(a: usize, b: usize) -> usize
    ensures { result ≡ a - b }
{
    a.saturating_sub(b)
}

// The byte at a place, 0 past the end.
pub fn byte_at(text: &[u8], at: usize) -> u8
    ensures { result ≡ get_or text.now at 0 }
{
    text.get(at).copied().unwrap_or(0)
}

// The text from `start` up to `end`, as far as it goes, by places that lie within it.
#[tactic(auto, using(crate::proofs::PlaceLaws::part_cut, crate::proofs::PlaceLaws::part_none), unfolding(crate::specs::Place::part_of))]
pub fn clip(text: &[u8], start: usize, end: usize) -> Span
    ensures { Clips text.now start end result }
{
    let stop = end.min(text.len());
    if stop <= start {
        return Span { start: 0, end: 0 };
    }
    Span { start, end: stop }
}

// The bytes themselves.
#[tactic(auto, unfolding(crate::specs::Place::part_of))]
pub fn part(text: &[u8], start: usize, end: usize) -> &[u8]
    ensures { result.now ≡ part_of text.now start end }
{
    let span = clip(text, start, end);
    &text[span.start..span.end]
}
