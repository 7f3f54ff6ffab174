// A chunk line against its rules, in their order: the text, the signature and the hash, the block's size, the answer's range, the body's size.
ghost use Rattle.std.specs.Prelude.{◌≡◌};
ghost use Rattle.refusals.specs.Refusals.{refusal_of};
ghost use Rattle.stream.specs.Places.{line_place};
ghost use Rattle.stream.specs.Rule.{first_broken};
ghost use Rattle.ranges.specs.Extent.{range_in};
ghost use Rattle.chunk.specs.Judging.{line_judged};
ghost use Rattle.chunk.specs.Parts.{bytes_in, is_due, number_of, size_rules};

use crate::reading::{Carried, read};
use limits::BODY_LIMIT;
use ranges::Extent;
use refusals::Refusal;

// A good line: it announces so many bytes. Of the 64 bytes that it carries, a signature or a hash, zeros stand where it carries neither.
#[derive(Clone, Copy)]
pub struct Line {
    pub size: u64,
    pub carried: [u8; 64],
}

// The place is that of the line's text.
// Kept (DESIGN-PASS 1): the number goes into a `Refusal`, which has any.
fn refused(line: &[u8], number: u8) -> Refusal
    ensures { result ≡ refusal_of number (line_place line.now) }
{
    refusals::of_section(number, scanning::line_place(line))
}

// Whether a line carries just what is due: a signature, or a hash on the first line of a part that does not begin with the body.
#[tactic(auto, unfolding(crate::specs::Parts::is_due, stream::specs::Blocks::is_hash_due))]
fn is_due(extent: Extent, due: bool, carried: Carried) -> bool
    ensures { result ≡ is_due (range_in extent) due carried }
{
    let first = ranges::first_byte(extent);
    let hash_due = (1 <= first.0) & !due;
    match carried {
        Carried::Nothing => !due & !hash_due,
        Carried::Signature(_) => due,
        Carried::Hash(_) => hash_due,
    }
}

// The number of the first broken rule about the size, for a line that announces `chunk` bytes. No body comes near the largest number.
#[tactic(auto, unfolding(crate::specs::Parts::size_rules, stream::specs::Rule::first_broken))]
fn broken(chunk: u64, size: u64, extent: Extent, full: bool, so_far: u64) -> Option<u8>
    ensures { result ≡ number_of (first_broken (size_rules size (range_in extent) full so_far chunk)) }
{
    let sized = (chunk <= size) & (full | (chunk == 0));
    if !sized | !ranges::is_within(extent, so_far, chunk) {
        return Some(7);
    }
    let body = so_far.saturating_add(chunk);
    if BODY_LIMIT < body {
        return Some(9);
    }
    None
}

fn bytes_of(carried: Carried) -> [u8; 64]
    ensures { result ≡ bytes_in carried }
{
    match carried {
        Carried::Nothing => [0; 64],
        Carried::Signature(bytes) | Carried::Hash(bytes) => bytes,
    }
}

// Judges a whole line: blocks have `size` bytes, the answer carries those of the extent, a signature is due or not, the block before is full or
// not, and the body has `so_far` bytes.
#[tactic(auto, using(crate::proofs::RuleLaws::judged_unread, crate::proofs::RuleLaws::judged_undue, crate::proofs::RuleLaws::judged_broken, crate::proofs::RuleLaws::judged_good))]
pub fn judge(
    line: &[u8],
    size: usize,
    extent: Extent,
    due: bool,
    full: bool,
    so_far: u64,
) -> Result<Line, Refusal>
    ensures { result ≡ line_judged size (range_in extent) due full so_far line.now }
{
    let Some(text) = read(line) else {
        return Err(refused(line, 6));
    };
    if !is_due(extent, due, text.carried) {
        return Err(refused(line, 8));
    }
    if let Some(number) = broken(text.size, size as u64, extent, full, so_far) {
        return Err(refused(line, number));
    }
    Ok(Line {
        size: text.size,
        carried: bytes_of(text.carried),
    })
}
