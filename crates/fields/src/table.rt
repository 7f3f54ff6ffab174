// The fields of a head as places in its text.
ghost use Rattle.std.specs.Prelude.{List, [], ◌≡◌, ℕ, min};
ghost use Rattle.stream.specs.Limits.{field_limit};
ghost use Rattle.fields.specs.Table.{fields_in, used_entries};

use field_lines::Entry;
use limits::FIELD_LIMIT;

// The first `count` entries are fields.
// Kept (DESIGN-PASS 6): the reader has no heap, and a head has 128 fields at most.
#[derive(Clone, Copy)]
pub struct Fields {
    pub count: usize,
    pub entries: [Entry; FIELD_LIMIT],
}

impl Fields {
    // The entries that are fields.
    pub fn used(&self) -> &[Entry]
        ensures { result.now ≡ used_entries self.now }
    {
        &self.entries[..self.count.min(FIELD_LIMIT)]
    }
}

// How many fields there are.
pub fn count(f: Fields) -> usize
    ensures { result ≡ min f.count field_limit }
{
    f.count.min(FIELD_LIMIT)
}

// A table without fields.
pub fn none() -> Fields
    ensures { (text : List ℕ) → fields_in text result ≡ [] }
{
    Fields {
        count: 0,
        entries: [Entry::none(); FIELD_LIMIT],
    }
}
