// What is still to come of a text, and what a byte leaves to come.
ghost use Rattle.std.specs.Prelude.{◌≡◌};
ghost use Rattle.scanner.specs.Form.{or_else, when};
ghost use Rattle.scanning.specs.States.{form_at, meant};

// A flag says of a line whether field lines follow it, or nothing.
#[derive(Clone, Copy)]
pub(crate) enum State {
    // a chunk line, from its first byte; no more digits of its size than so many, and then the rest
    Line,
    Digits(u8),
    // `;oui` without its first so many bytes, and then `sig=` or `hash=`; each of these without its first so many; so many letters of the
    // signature or the hash, and the one before `==`; `==`; `=`
    Mark(u8),
    Sig(u8),
    Hash(u8),
    Letters(u8),
    Pads,
    Pad,
    // CR LF, which ends a chunk line or a block's data
    Return,
    // `HTTP/1.1 ` without its first so many bytes; so many digits of the status
    Version(bool, u8),
    Status(bool, u8),
    // field lines up to the empty one; one field line; the rest of its name; the rest of a value or a reason; LF
    Lines,
    Field,
    FieldName(bool),
    Value(bool),
    LineFeed(bool),
    // a name by itself, and the rest of it
    Name,
    NameRest,
    End,
}

// The end of a run goes before one byte more of it.
#[tactic(auto, using(crate::proofs::StepLaws::meant_if))]
pub(crate) fn end_or(end: bool, next: State, more: bool, stay: State) -> Option<State>
    ensures { meant result ≡ or_else (when end (form_at next)) (when more (form_at stay)) }
{
    if end {
        return Some(next);
    }
    more.then_some(stay)
}
