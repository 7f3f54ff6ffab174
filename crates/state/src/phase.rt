// Where the reader stands in the stream, with the counts that this takes.
ghost use Rattle.std.specs.Prelude.{◌≡◌};
ghost use Rattle.state.specs.Configuration.{pending as pendingIn};

// Where the reader stands in the stream. Counts are of bytes gathered; `size` is the size of the block under way.
#[derive(Clone, Copy)]
pub enum Phase {
    // In the head.
    Head(usize),
    // The head's question is open; the head has so many bytes.
    HeadAsked(usize),
    // In the first chunk line.
    FirstLine(usize),
    // In a block's data.
    Data { have: usize, size: usize },
    // In the CR LF after it.
    DataEnd { have: usize, size: usize },
    // In the line after it, which carries its signature.
    NextLine { have: usize, size: usize },
    // The block's question is open; the line has announced `next` bytes.
    BlockAsked { size: usize, next: usize },
    // In the trailer of a body of `total` bytes.
    Trailer { have: usize, total: u64 },
    // The question about the end of the show is open.
    EndAsked { have: usize, total: u64 },
    // The three last words.
    Closed(u64),
    Complete(u64),
    // Kept (DESIGN-PASS 1): a state that C lends may have any byte here, and `layout::load` promises which reader that is.
    Refused(u8),
}

// How many bytes of the block buffer belong to a block that is not released, or to the trailer.
pub fn pending(p: Phase) -> usize
    ensures { result ≡ pendingIn p }
{
    match p {
        Phase::Data { have, .. } | Phase::Trailer { have, .. } | Phase::EndAsked { have, .. } =>
            have,
        Phase::DataEnd { size, .. }
        | Phase::NextLine { size, .. }
        | Phase::BlockAsked { size, .. } => size,
        Phase::Head(_) | Phase::HeadAsked(_) | Phase::FirstLine(_) => 0,
        Phase::Closed(_) | Phase::Complete(_) | Phase::Refused(_) => 0,
    }
}
