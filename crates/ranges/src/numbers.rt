// A number after fixed text, as the value of `Content-Range` has three of them.
ghost use Rattle.std.specs.Prelude.{◌≡◌};
ghost use Rattle.ranges.specs.Reading.{number_after};

use classes::Class;

// The number, and the place after its last digit.
#[derive(Clone, Copy)]
pub struct Numbered {
    pub number: u64,
    pub next: usize,
}

// None where the text or a number is not there.
pub(crate) fn number_after(value: &[u8], at: usize, mark: &[u8]) -> Option<Numbered>
    ensures { result ≡ number_after value.now at mark.now }
{
    if !text::starts_with(value, at, mark) {
        return None;
    }
    let start = at + mark.len();
    let next = classes::run_end(value, start, Class::Digit);
    let number = number::decimal(places::part(value, start, next), limits::TIME_DIGITS).ok()?;
    Some(Numbered { number, next })
}
