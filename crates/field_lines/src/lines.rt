// The lines of a text, one after the other.
ghost use Rattle.std.specs.Prelude.{◌≡◌, ◌-◌, length};
ghost use Rattle.std.specs.Iterator.{at_most};
ghost use Rattle.field_lines.specs.Placed.{GivesLine};

// Each line of `text` from the place `next` on, with the place where it begins, up to the empty line or the end of the text.
#[derive(Clone, Copy)]
pub struct Lines<'a> {
    text: &'a [u8],
    next: usize,
}

pub fn lines_from(text: &[u8], from: usize) -> Lines<'_>
    ensures text { result.text.now ≡ text.now }
    ensures place { result.next ≡ from }
{
    Lines { text, next: from }
}

impl<'a> Iterator for Lines<'a> {
    type Item = (usize, &'a [u8]);

    ghost next_gives = { GivesLine };

    ghost remaining = { λ s. at_most (length s.text.now - s.next) };

    // An empty line ends where it begins, as does one past the text's end.
    fn next(&mut self) -> Option<(usize, &'a [u8])> {
        let start = self.next;
        let end = text::line_end(self.text, start);
        if end == start {
            return None;
        }
        self.next = end + 2;
        Some((start, &self.text[start..end]))
    }
}
