// Base64 with padding (RFC 4648, section 4), of a number of bytes that is known beforehand, read a group of four characters at a turn.
#![tactic(auto)]

ghost use Rattle.std.specs.Prelude.{true, ◌≡◌, ◌<◌, length, set, SomeIff};
ghost use Rattle.octets.specs.Viable.{LongestViable};
ghost use Rattle.base64_text.specs.Base64.{letter_value, is_base64, base64_bytes};
ghost use Rattle.base64_text.specs.Places.{stands_as, checked};
ghost use Rattle.base64_text.specs.Groups.{in_range, group_of};
ghost use Rattle.base64_text.specs.Decoding.{answered, decoded, read_as};

use places::Checked;

// How many of four characters may stand where they do, up to the first that may not; and the 24 bits of all four, padding as zeros.
#[derive(Clone, Copy)]
struct Group {
    standing: usize,
    bits: u32,
}

// How far b is above low, and base more, where it is from low to high. Else other, which is at hand already: nothing need be jumped over.
fn in_range(b: u8, low: u8, high: u8, base: u32, other: u32) -> u32
    requires { base < 64 }
    ensures { result ≡ in_range b low high base other }
{
    if (low <= b) & (b <= high) {
        return (b - low) as u32 + base;
    }
    other
}

// A letter's value, and 64 for any other byte. All five tests are made of each byte: which of them a letter meets cannot be foreseen.
#[tactic(auto, using(crate::proofs::Letters::range_value))]
pub fn value(b: u8) -> u32
    ensures { result ≡ letter_value b }
{
    let slash = in_range(b, b'/', b'/', 63, 64);
    let plus = in_range(b, b'+', b'+', 62, slash);
    let digit = in_range(b, b'0', b'9', 52, plus);
    let small = in_range(b, b'a', b'z', 26, digit);
    in_range(b, b'A', b'Z', 0, small)
}

// Whether byte b, whose value is v, may stand at place k of a group where so many bytes are left.
#[tactic(auto, unfolding(crate::specs::Places::stands_as))]
fn may_stand(left: usize, k: usize, b: u8, v: u32) -> bool
    ensures { result ≡ stands_as left k b v }
{
    if (3 <= left) | (k < left) {
        return v < 64;
    }
    if left < k {
        return b == b'=';
    }
    if left == 1 {
        return (v < 64) & (v % 16 == 0);
    }
    (v < 64) & (v % 4 == 0)
}

// Four characters as a group where so many bytes are left.
#[tactic(auto, using(crate::proofs::Standing::stops_at_0, crate::proofs::Standing::stops_at_1, crate::proofs::Standing::stops_at_2, crate::proofs::Standing::stops_at_3))]
fn read_group(left: usize, a: u8, b: u8, c: u8, d: u8) -> Group
    ensures { result ≡ group_of left a b c d }
{
    let p = value(a);
    let q = value(b);
    let r = value(c);
    let s = value(d);
    let bits = ((p % 64 * 64 + q % 64) * 64 + r % 64) * 64 + s % 64;
    if !may_stand(left, 0, a, p) {
        return Group { standing: 0, bits };
    }
    if !may_stand(left, 1, b, q) {
        return Group { standing: 1, bits };
    }
    if !may_stand(left, 2, c, r) {
        return Group { standing: 2, bits };
    }
    if !may_stand(left, 3, d, s) {
        return Group { standing: 3, bits };
    }
    Group { standing: 4, bits }
}

// Writes a byte at a place of the buffer, or nothing where the buffer has no such place.
fn put(out: &mut [u8], at: usize, b: u8)
    ensures { out.new ≡ set out.old at b }
{
    if at < out.len() {
        out[at] = b;
    }
}

// Reads text as the base64 of n bytes: a turn for each group, the padded one too, so 11 turns for 32 bytes and 22 for 64. Where text is good and
// out has n places, out then holds the bytes; else it is of no use.
fn read(text: &[u8], n: usize, out: &mut [u8]) -> Checked
    ensures answers { result ≡ checked n text.now }
    ensures writes { length out.old ≡ n → is_base64 n text.now ≡ true → out.new ≡ base64_bytes n text.now }
{
    let mut o = 0;
    let mut i = 0;
    // Kept (DESIGN-PASS 3): text and out go on by four and by three, either may end before n does, and no proof knows what `chunks_mut` wrote.
    while o < n {
        let g = read_group(
            n - o,
            places::byte_at(text, i),
            places::byte_at(text, i + 1),
            places::byte_at(text, i + 2),
            places::byte_at(text, i + 3),
        );
        if g.standing < 4 {
            return Checked {
                good: false,
                at: i + g.standing,
            };
        }
        put(out, o, (g.bits / 65536 % 256) as u8);
        put(out, o + 1, (g.bits / 256 % 256) as u8);
        put(out, o + 2, (g.bits % 256) as u8);
        o += 3;
        i += 4;
    }
    Checked {
        good: text.len() == i,
        at: i,
    }
}

// Whether text is the base64 of n bytes, and how many of its first characters some base64 of n bytes also has.
#[tactic(auto, using(crate::proofs::Viable::viable_longest))]
pub fn check(text: &[u8], n: usize) -> Checked
    ensures answers { result ≡ checked n text.now }
    ensures exactly { LongestViable (is_base64 n) text.now result.at }
{
    read(text, n, &mut [])
}

// Reads text as the base64 of as many bytes as out has. Where it is that, out holds them and the answer is true; else out is as it was. Where out
// may have any length, there is no room to hold the bytes back until the last group is seen: so the text is gone over twice.
// Kept (DESIGN-PASS 1): bytes of any number stand in no Option without a heap.
#[tactic(auto, unfolding(crate::specs::Decoding::decoded))]
pub fn decode(text: &[u8], out: &mut [u8]) -> bool
    ensures { answered result out.new ≡ decoded (length out.old) text.now out.old }
{
    if !check(text, out.len()).good {
        return false;
    }
    read(text, out.len(), out);
    true
}

// Text as the base64 of N bytes: Some of them where it is that, else None.
pub fn bytes<const N: usize>(text: &[u8]) -> Option<[u8; N]>
    ensures read { result ≡ read_as N text.now }
    ensures cases { SomeIff result (is_base64 N text.now ≡ true) (base64_bytes N text.now) }
{
    let mut bytes = [0u8; N];
    read(text, N, &mut bytes).good.then_some(bytes)
}

// The same into a lent buffer, which is as it was where text is not the base64 of N bytes.
#[tactic(auto, unfolding(crate::specs::Decoding::decoded))]
fn fill<const N: usize>(text: &[u8], out: &mut [u8; N]) -> bool
    ensures { answered result out.new ≡ decoded N text.now out.old }
{
    let Some(bytes) = bytes(text) else {
        return false;
    };
    *out = bytes;
    true
}

// A public key: 44 characters for 32 bytes.
// Kept (DESIGN-PASS 1): the promise is of what is left in the lent array, as C needs it of `signature`; `bytes` has the Option.
pub fn key(text: &[u8], out: &mut [u8; 32]) -> bool
    ensures { answered result out.new ≡ decoded 32 text.now out.old }
{
    fill(text, out)
}

// A signature: 88 characters for 64 bytes.
// Kept (DESIGN-PASS 1): as of `key`: two names for `fill` at a length, which C and the tests call.
pub fn signature(text: &[u8], out: &mut [u8; 64]) -> bool
    ensures { answered result out.new ≡ decoded 64 text.now out.old }
{
    fill(text, out)
}
