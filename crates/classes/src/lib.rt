// Bytes by class, how far a run of bytes of one class goes, and a text without the blanks at its ends.
#![tactic(auto)]

ghost use Rattle.std.specs.Prelude.{◌≡◌, ◌+◌, drop, length};
ghost use Rattle.stream.specs.Bytes.{is_blank, is_id_byte, is_tchar, is_text};
ghost use Rattle.stream.specs.Template.{run};
ghost use Rattle.classes.specs.Class.{class_of};

mod spans; // a text without the blanks at its ends

pub use spans::trim;

#[derive(Clone, Copy)]
pub enum Class {
    Tchar,
    Text,
    Digit,
    Hex,
    Id,
    Quoted,
    Blank,
    Any,
}

fn is_tchar(b: u8) -> bool
    ensures { result ≡ is_tchar b }
{
    matches!(b, b'0'..=b'9' | b'A'..=b'Z' | b'a'..=b'z'
        | b'!' | b'#' | b'$' | b'%' | b'&' | b'\'' | b'*' | b'+' | b'-' | b'.' | b'^' | b'_' | b'`' | b'|' | b'~')
}

fn is_text(b: u8) -> bool
    ensures { result ≡ is_text b }
{
    matches!(b, b'\t' | b' '..=b'~' | 128..=255)
}

fn is_id_byte(b: u8) -> bool
    ensures { result ≡ is_id_byte b }
{
    matches!(b, b'A'..=b'Z' | b'a'..=b'z' | b'0'..=b'9' | b'-' | b'_')
}

fn is_blank(b: u8) -> bool
    ensures { result ≡ is_blank b }
{
    matches!(b, b' ' | b'\t')
}

// Kept (DESIGN-PASS 7): a class is named in contracts and stands in no state as code; an exhaustive match is plainer than a table of functions.
#[tactic(auto, unfolding(crate::specs::Class::class_of))]
pub fn is_in(c: Class, b: u8) -> bool
    ensures { result ≡ class_of c b }
{
    match c {
        Class::Tchar => is_tchar(b),
        Class::Text => is_text(b),
        Class::Digit => b.is_ascii_digit(),
        Class::Hex => b.is_ascii_hexdigit(),
        Class::Id => is_id_byte(b),
        Class::Quoted => b != b'"',
        Class::Blank => is_blank(b),
        Class::Any => true,
    }
}

// The first place from `from` on whose byte is not of the class, or the length; `from` where that is past the end.
pub fn run_end(s: &[u8], from: usize, c: Class) -> usize
    ensures { result ≡ from + length (run (class_of c) (drop from s.now)) }
{
    let rest = &s[from.min(s.len())..];
    from + rest.iter().take_while(|b| is_in(c, **b)).count()
}
