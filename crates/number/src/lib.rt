// Numbers read from bytes and written as bytes. A reader takes any slice: of what is no number of the form, Err says how long its longest
// beginning is that some number of the form also has.
#![tactic(auto)]

ghost use Rattle.std.specs.Prelude.{◌≡◌, ℕ, ◌^◌, ◌≤◌, min, length, Err};
ghost use Rattle.octets.specs.Viable.{LongestViable};
ghost use Rattle.stream.specs.GoodText.{is_count};
ghost use Rattle.stream.specs.Numbers.{is_decimal, is_hex_number, decimal as decimalText};
ghost use Rattle.number.specs.Reading.{decimal_read, hex_read, count_read};
ghost use Rattle.number.specs.Writing.{written, decimal_written};
ghost use Rattle.number.specs.Digits.{digit_of, front_from, most_digits, fitting, whole_read};

// How many digits stand in front of a text, and the number that they write.
#[derive(Clone, Copy)]
struct Digits {
    count: usize,
    value: u64,
}

// A decimal number of at most `most` digits, and at most 19, with no zero in front.
pub fn decimal(s: &[u8], most: usize) -> Result<u64, usize>
    ensures answers { result ≡ decimal_read most s.now }
    ensures exactly { (p : ℕ) → 1 ≤ most → result ≡ Err p → LongestViable (is_decimal (min most 19)) s.now p }
{
    whole(s.len(), front(s, 10, most_digits(s, most, 1)))
}

// Such a number from 1 to the limit.
pub fn count(s: &[u8], most: usize, limit: u64) -> Result<u64, usize>
    ensures answers { result ≡ count_read most limit s.now }
    ensures exactly { (p : ℕ) → 1 ≤ most → 1 ≤ limit → result ≡ Err p → LongestViable (is_count (min most 19) limit) s.now p }
{
    let d = front(s, 10, most_digits(s, most, 0));
    let count = fit(d.count, d.value, limit);
    let value = d.value;
    whole(s.len(), Digits { count, value })
}

// A hex number of at most `most` digits, and at most 16, of either case.
pub fn hex(s: &[u8], most: usize) -> Result<u64, usize>
    ensures answers { result ≡ hex_read most s.now }
    ensures exactly { (p : ℕ) → 1 ≤ most → result ≡ Err p → LongestViable (is_hex_number (min most 16)) s.now p }
{
    whole(s.len(), front(s, 16, most.min(16)))
}

// The number of a text of so many bytes: it is digits to its end, and has one.
#[tactic(auto, unfolding(crate::specs::Digits::whole_read))]
fn whole(length: usize, d: Digits) -> Result<u64, usize>
    ensures { result ≡ whole_read length d }
{
    if (1 <= d.count) & (length <= d.count) {
        return Ok(d.value);
    }
    Err(d.count)
}

// How many digits of a decimal may be taken: at most 19, and where the first is 0, no more than `zeros`.
#[tactic(auto, unfolding(crate::specs::Digits::most_digits))]
fn most_digits(s: &[u8], most: usize, zeros: usize) -> usize
    ensures { result ≡ most_digits (min most 19) zeros s.now }
{
    let all = most.min(19);
    if places::byte_at(s, 0) == b'0' {
        return all.min(zeros);
    }
    all
}

// The digits of the base in front, no more than `most`. The caller sees that their number fits.
fn front(s: &[u8], base: u64, most: usize) -> Digits
    requires { base ^ most ≤ 2 ^ 64 }
    ensures { result ≡ front_from base most 0 0 s.now }
{
    let most_read = &s[..s.len().min(most)];
    let mut value = 0;
    for (count, b) in most_read.iter().enumerate() {
        let d = digit(*b);
        if base <= d {
            return Digits { count, value };
        }
        value = value * base + d;
    }
    let count = most_read.len();
    Digits { count, value }
}

// Of `count` digits that write a value, those that are left where the last ones are taken away until the rest write no more than the limit.
fn fit(count: usize, value: u64, limit: u64) -> usize
    ensures { result ≡ fitting limit count value }
{
    let mut left = value;
    for n in (1..=count).rev() {
        if left <= limit {
            return n;
        }
        left /= 10;
    }
    0
}

// A digit's value in any base that has it, and 16 for a byte that is no hex digit.
#[tactic(auto, unfolding(crate::specs::Digits::digit_of))]
fn digit(b: u8) -> u64
    ensures { result ≡ digit_of b }
{
    match b {
        b'0'..=b'9' => u64::from(b - b'0'),
        b'A'..=b'F' => u64::from(b - b'A') + 10,
        b'a'..=b'f' => u64::from(b - b'a') + 10,
        _ => 16,
    }
}

// Writes n in decimal from index `at` on and returns how many bytes that took: none where it does not fit whole.
pub fn write_decimal(out: &mut [u8], at: usize, n: u64) -> usize
    ensures { written result out.new ≡ decimal_written out.old at n }
{
    let count = width(n);
    if out.len() < at {
        return 0;
    }
    if out.len() - at < count {
        return 0;
    }
    let mut left = n;
    for i in (0..count).rev() {
        out[at + i] = b'0' + (left % 10) as u8;
        left /= 10;
    }
    count
}

// How many digits n has in decimal.
#[tactic(auto, using(crate::proofs::Numerals::digits_are))]
fn width(n: u64) -> usize
    ensures { result ≡ length (decimalText n) }
{
    n.max(1).ilog10() as usize + 1
}
