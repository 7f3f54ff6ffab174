// One field as places in a text.
ghost use Rattle.std.specs.Prelude.{◌≡◌};
ghost use Rattle.field_lines.specs.Entries.{entry_name, entry_value, no_entry};

use places::Span;

// Where the field's name lies, and its value without the blanks at its ends.
#[derive(Clone, Copy)]
pub struct Entry {
    pub name: Span,
    pub value: Span,
}

impl Entry {
    // Where nothing was read.
    pub fn none() -> Entry
        ensures { result ≡ no_entry }
    {
        let nowhere = Span { start: 0, end: 0 };
        Entry {
            name: nowhere,
            value: nowhere,
        }
    }

    pub fn name_in(self, text: &[u8]) -> &[u8]
        ensures { result.now ≡ entry_name text.now self }
    {
        places::part(text, self.name.start, self.name.end)
    }

    pub fn value_in(self, text: &[u8]) -> &[u8]
        ensures { result.now ≡ entry_value text.now self }
    {
        places::part(text, self.value.start, self.value.end)
    }
}
