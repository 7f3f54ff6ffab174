// A value gone through part by part, as a template has it. Each function reads the template's next parts at a place and
// answers with the run among them that is kept, and with the place where the parts after them start: None where the value has other parts there.
ghost use Rattle.std.specs.Prelude.{[], ◌∷◌, ◌≡◌, ◌≤◌, length};
ghost use Rattle.stream.specs.Signatures.{key_parts};
ghost use Rattle.stream.specs.Template.{text, bytes, gap};
ghost use Rattle.params.specs.Parts.{Inside, Reads, GoesOn, run_bytes};
ghost use Rattle.classes.specs.Class.{class_of};

use classes::Class;

// The run from `start` up to `end`, and the place `next` after it.
#[derive(Clone, Copy)]
pub struct Run {
    pub start: usize,
    pub end: usize,
    pub next: usize,
}

// Fixed text, and the run of the class that comes after it.
pub(crate) fn run_after(value: &[u8], at: usize, before: &[u8], c: Class) -> Option<Run>
    requires { at ≤ length value.now }
    ensures { Reads (text before.now ∷ bytes (class_of c) ∷ []) value.now at result }
{
    if !text::starts_with(value, at, before) {
        return None;
    }
    let start = at + before.len();
    let end = classes::run_end(value, start, c);
    Some(Run {
        start,
        end,
        next: end,
    })
}

// After a run: fixed text, and the spaces and tabs that may follow it.
fn past_mark(value: &[u8], run: Run, mark: &[u8]) -> Option<Run>
    requires { Inside value.now run }
    ensures { GoesOn value.now run mark.now result }
{
    let at = run.next;
    if !text::starts_with(value, at, mark) {
        return None;
    }
    let next = classes::run_end(value, at + mark.len(), Class::Blank);
    Some(Run { next, ..run })
}

// Fixed text, a run of the class, and the text that ends it, after which spaces and tabs may follow.
pub(crate) fn run_up_to(
    value: &[u8],
    at: usize,
    before: &[u8],
    c: Class,
    mark: &[u8],
) -> Option<Run>
    requires { at ≤ length value.now }
    ensures { Reads (text before.now ∷ bytes (class_of c) ∷ text mark.now ∷ gap ∷ []) value.now at result }
{
    let run = run_after(value, at, before, c)?;
    past_mark(value, run, mark)
}

// The parameters with which both signature fields begin; the run is the key.
pub fn key_part(value: &[u8]) -> Option<Run>
    ensures { Reads key_parts value.now 0 result }
{
    let key = run_up_to(value, 0, b"keyId=\"ed25519=", Class::Quoted, b"\",")?;
    past_mark(value, key, b"algorithm=\"hs2019\",")
}

// The bytes of a run.
pub(crate) fn bytes_of(value: &[u8], run: Run) -> &[u8]
    ensures { result.now ≡ run_bytes value.now run }
{
    places::part(value, run.start, run.end)
}
