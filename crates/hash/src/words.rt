// What differs from one hash function of FIPS 180-4 to another: its words, the functions on them (4.1.2 and 4.1.3), and how many rounds
// and bytes it has.
ghost use Rattle.std.specs.Prelude.{◌≡◌, ℕ, ◌+◌, ◌*◌, ◌%◌, ◌≤◌, length};
ghost use Rattle.hash.specs.Sha2.{Variant, plus, ch, maj, Σ, σ, number, big_endian};

pub trait Words {
    type Word: Copy;

    // The number that a word is, and the standard's numbers of the function.
    ghost value: { Self.Word → ℕ };

    ghost variant: { Variant };

    // The bytes of a word.
    const BYTES: usize;

    ghost BYTES: { ℕ };

    // The bytes that write a message's length in bits: two words.
    const LENGTH: usize;

    ghost LENGTH: { ℕ };

    // A word to begin with.
    const ZERO: Self::Word;

    fn plus(x: Self::Word, y: Self::Word) -> Self::Word
        ensures { value result ≡ plus variant (value x) (value y) };

    fn choose(x: Self::Word, y: Self::Word, z: Self::Word) -> Self::Word
        ensures { value result ≡ ch variant (value x) (value y) (value z) };

    fn majority(x: Self::Word, y: Self::Word, z: Self::Word) -> Self::Word
        ensures { value result ≡ maj (value x) (value y) (value z) };

    fn big0(x: Self::Word) -> Self::Word
        ensures { value result ≡ Σ variant variant.big0 (value x) };

    fn big1(x: Self::Word) -> Self::Word
        ensures { value result ≡ Σ variant variant.big1 (value x) };

    fn small0(x: Self::Word) -> Self::Word
        ensures { value result ≡ σ variant variant.small0 (value x) };

    fn small1(x: Self::Word) -> Self::Word
        ensures { value result ≡ σ variant variant.small1 (value x) };

    // The word that its bytes write, the highest first. Of another number of bytes nothing is said.
    fn read(bytes: &[u8]) -> Self::Word
        ensures { length bytes.now ≡ variant.bytes → value result ≡ number 0 bytes.now };

    // Writes a word's bytes, the highest first, over as many. Of another number of bytes nothing is said.
    fn write(x: Self::Word, out: &mut [u8])
        ensures { length out.old ≡ variant.bytes → out.new ≡ big_endian variant.bytes (value x) };

    ghost bytes_are: { variant.bytes ≡ BYTES };

    ghost length_is: { 2 * BYTES ≡ LENGTH };

    ghost bytes_fit: { (1 ≤ BYTES) × (BYTES ≤ 8) };
}

// A hash function of so many rounds, whose hash has so many bytes. Four rounds are a turn.
pub trait Sha2<const ROUNDS: usize, const SIZE: usize>: Words {
    ghost rounds_are: { (16 ≤ ROUNDS) × (ROUNDS % 4 ≡ 0) };

    ghost size_is: { SIZE ≡ 8 * Self.variant.bytes };
}
