// Words of 32 bits, each written as a number.
ghost use Rattle.std.specs.Prelude.{◌≡◌, ◌%◌, length};
ghost use Rattle.std.proofs.lemmas.List.Edits.{sets};
ghost use Rattle.packing.specs.Parts.{all_bytes, words_at};

use crate::parts::{number_at, put_numbers};

fn low_word(n: u64) -> u32
    ensures { result ≡ n % 4294967296 }
{
    (n % 4_294_967_296) as u32
}

// The words of as many numbers, from the place `at` on. Of a number that is too large for a word its lowest bits count.
pub fn words_at(from: &[u8], at: u16) -> [u32; 8]
    ensures { result ≡ words_at from.now at 8 }
{
    let start = usize::from(at);
    let mut words = [0; 8];
    for (i, word) in words.iter_mut().enumerate() {
        *word = low_word(number_at(from, start + 8 * i));
    }
    words
}

// Writes each word as a number, from the place `at` on; that there are eight of them is said beside.
pub fn put_words(to: &mut [u8], at: u16, words: [u32; 8])
    ensures { (to.new ≡ sets to.old at (all_bytes words)) × (length words ≡ 8) }
{
    put_numbers(to, at, &words.map(u64::from));
}
