// The names that a signature lists, as places in their text.
ghost use Rattle.std.specs.Prelude.{◌≡◌, ◌+◌, drop, length};
ghost use Rattle.stream.specs.Template.{run};
ghost use Rattle.names.specs.NameList.{is_name_byte, used_spans, ReadsNames};

use limits::NAME_LIMIT;
use places::Span;

// The first `count` spans are names.
// Kept (DESIGN-PASS 6): the reader has no heap, and a list has 32 names at most.
#[derive(Clone, Copy)]
pub struct Names {
    pub count: usize,
    pub spans: [Span; NAME_LIMIT],
}

impl Names {
    // The spans that are names.
    pub fn used(&self) -> &[Span]
        ensures { result.now ≡ used_spans self.now }
    {
        &self.spans[..self.count.min(NAME_LIMIT)]
    }
}

// Splits the text at its spaces; none where it has too many names.
pub fn read_names(text: &[u8]) -> Option<Names>
    ensures { ReadsNames text.now result }
{
    let mut spans = [Span { start: 0, end: 0 }; NAME_LIMIT];
    let mut start = 0;
    for i in 0..NAME_LIMIT {
        let end = name_end(text, start);
        spans[i] = Span { start, end };
        if text.len() <= end {
            return Some(Names {
                count: i + 1,
                spans,
            });
        }
        start = end + 1;
    }
    None
}

// The first place from `from` on that has a space, or the length; `from` where that is past the end.
fn name_end(text: &[u8], from: usize) -> usize
    ensures { result ≡ from + length (run is_name_byte (drop from text.now)) }
{
    if text.len() <= from {
        return from;
    }
    from + text[from..].iter().take_while(|b| **b != b' ').count()
}
