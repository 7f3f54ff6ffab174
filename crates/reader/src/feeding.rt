// A piece of the stream, however it is cut.
ghost use Rattle.std.specs.Prelude.{◌≡◌};
ghost use Rattle.refusals.specs.Refusals.{plain};
ghost use Rattle.ring.specs.Keys.{terms_of};
ghost use Rattle.state.specs.Configuration.{configuration, next_of, saying};
ghost use Rattle.calls.specs.Response.{made};
ghost use Rattle.reader.specs.Feed.{push_byte, taken_from, feed_of};

use calls::{Outcome, are_roomy, ended, is_reading, recalled, told, unchanged};
use limits::RING_LIMIT;
use ring::KeyRing;
use state::{Phase, Reader, Stepped, Word};

// In a phase that takes no bytes nothing changes.
fn not_due(r: Reader) -> Stepped
    ensures { result ≡ saying (Word.Refused (plain 1)) r }
{
    state::said(Word::Refused(refusals::plain(1)), r)
}

// One byte, by the phase. Inside the loop of `take`, so that the reader is not copied in and out for each byte.
// Kept (DESIGN-PASS 7): the phase is what C keeps between calls, so the step is found from it, by a match that leaves no phase out.
#[inline(always)]
#[tactic(auto, unfolding(crate::specs::Feed::push_at))]
fn push(
    r: Reader,
    head: &mut [u8],
    block: &mut [u8],
    question: &mut [u8],
    ring: KeyRing,
    uri: &[u8],
    x: u8,
) -> Stepped
    ensures { next_of result head.new block.new question.new ≡ push_byte (terms_of ring uri.now) (configuration r head.old block.old question.old) x }
{
    match r.phase {
        Phase::Head(have) => head_steps::push_head(r, head, question, ring, uri, have, x),
        Phase::FirstLine(have) => line_steps::push_first_line(r, have, x),
        Phase::Data { have, size } => body_steps::push_data(r, block, have, size, x),
        Phase::DataEnd { have, size } => body_steps::push_data_end(r, block, have, size, x),
        Phase::NextLine { have, size } => line_steps::push_next_line(
            r, block, question, have, size, x,
        ),
        Phase::Trailer { have, total } => trailer_steps::push_trailer(
            r, head, block, question, have, total, x,
        ),
        Phase::HeadAsked(_) | Phase::BlockAsked { .. } | Phase::EndAsked { .. } => not_due(r),
        Phase::Closed(_) | Phase::Complete(_) | Phase::Refused(_) => not_due(r),
    }
}

// Takes bytes up to the first event, or all. Each turn hands the rest of the piece on to be skipped where nothing can happen in
// it, and then pushes one byte.
fn take(
    r: Reader,
    head: &mut [u8],
    block: &mut [u8],
    question: &mut [u8],
    ring: KeyRing,
    uri: &[u8],
    piece: &[u8],
) -> Outcome
    ensures { made result head.new block.new question.new ≡ taken_from (terms_of ring uri.now) (configuration r head.old block.old question.old) piece.now }
{
    let mut state = r;
    let mut taken = 0;
    // Kept (DESIGN-PASS 3): a turn takes a run of any length and a byte after it, and how many were taken is told at every end.
    while taken < piece.len() {
        let passed = body_steps::skip(state, block, &piece[taken..]);
        taken += passed.taken;
        if piece.len() <= taken {
            return told(Word::More, taken, passed.reader);
        }
        let x = piece[taken];
        let stepped = push(passed.reader, head, block, question, ring, uri, x);
        taken += 1;
        state = stepped.reader;
        if !state::goes_on(stepped.word) {
            return ended(stepped, taken);
        }
    }
    told(Word::More, taken, state)
}

// Takes a piece of the stream, up to the byte that leads to an event.
#[tactic(auto, unfolding(crate::specs::Feed::feed_of))]
pub fn feed(
    r: Reader,
    head: &mut [u8],
    block: &mut [u8],
    question: &mut [u8],
    ring: KeyRing,
    uri: &[u8],
    piece: &[u8],
) -> Outcome
    ensures { made result head.new block.new question.new ≡ feed_of ring uri.now (configuration r head.old block.old question.old) piece.now }
{
    if !are_roomy(head.len(), block.len(), question.len()) {
        return unchanged(r, 2);
    }
    if RING_LIMIT < ring.count {
        return unchanged(r, 2);
    }
    if !is_reading(r.phase) {
        return unchanged(r, 1);
    }
    take(recalled(r), head, block, question, ring, uri, piece)
}
