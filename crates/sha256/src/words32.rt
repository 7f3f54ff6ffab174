// The words of SHA-256: of 32 bits (FIPS 180-4, 4.1.2).
ghost use Rattle.std.specs.Prelude.{refl};
ghost use lib.Dec.{lit≤};
ghost use Rattle.sha256.specs.Sha256.{variant};

use hash::words::{Sha2, Words};

pub(crate) struct Sha256Words;

// Kept (DESIGN-PASS 2): the operators below are those of u32 itself, so that each type of words has lines of its own, as u64 in crate hash.
impl Words for Sha256Words {
    type Word = u32;

    ghost value = { λ x. x };

    ghost variant = { variant };

    const BYTES: usize = 4;

    ghost BYTES = { 4 };

    const LENGTH: usize = 8;

    ghost LENGTH = { 8 };

    const ZERO: u32 = 0;

    fn plus(x: u32, y: u32) -> u32 {
        x.wrapping_add(y)
    }

    fn choose(x: u32, y: u32, z: u32) -> u32 {
        (x & y) ^ (!x & z)
    }

    fn majority(x: u32, y: u32, z: u32) -> u32 {
        (x & y) ^ (x & z) ^ (y & z)
    }

    fn big0(x: u32) -> u32 {
        x.rotate_right(2) ^ x.rotate_right(13) ^ x.rotate_right(22)
    }

    fn big1(x: u32) -> u32 {
        x.rotate_right(6) ^ x.rotate_right(11) ^ x.rotate_right(25)
    }

    fn small0(x: u32) -> u32 {
        x.rotate_right(7) ^ x.rotate_right(18) ^ (x >> 3)
    }

    fn small1(x: u32) -> u32 {
        x.rotate_right(17) ^ x.rotate_right(19) ^ (x >> 10)
    }

    fn read(bytes: &[u8]) -> u32 {
        if bytes.len() != 4 {
            return 0;
        }
        let mut own = [0u8; 4];
        own.copy_from_slice(bytes);
        u32::from_be_bytes(own)
    }

    fn write(x: u32, out: &mut [u8]) {
        if out.len() == 4 {
            out.copy_from_slice(&x.to_be_bytes());
        }
    }

    ghost bytes_are = { refl };

    ghost length_is = { refl };

    ghost bytes_fit = { (lit≤ tt, lit≤ tt) };
}

impl Sha2<64, 32> for Sha256Words {
    ghost rounds_are = { (lit≤ tt, refl) };

    ghost size_is = { refl };
}
