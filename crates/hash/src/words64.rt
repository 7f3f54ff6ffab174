// The words of SHA-512: of 64 bits (FIPS 180-4, 4.1.3).
ghost use Rattle.std.specs.Prelude.{refl};
ghost use lib.Dec.{lit≤};
ghost use Rattle.hash.specs.Sha512.{variant};

use crate::words::{Sha2, Words};

pub(crate) struct Sha512Words;

impl Words for Sha512Words {
    type Word = u64;

    ghost value = { λ x. x };

    ghost variant = { variant };

    const BYTES: usize = 8;

    ghost BYTES = { 8 };

    const LENGTH: usize = 16;

    ghost LENGTH = { 16 };

    const ZERO: u64 = 0;

    fn plus(x: u64, y: u64) -> u64 {
        x.wrapping_add(y)
    }

    fn choose(x: u64, y: u64, z: u64) -> u64 {
        (x & y) ^ (!x & z)
    }

    fn majority(x: u64, y: u64, z: u64) -> u64 {
        (x & y) ^ (x & z) ^ (y & z)
    }

    fn big0(x: u64) -> u64 {
        x.rotate_right(28) ^ x.rotate_right(34) ^ x.rotate_right(39)
    }

    fn big1(x: u64) -> u64 {
        x.rotate_right(14) ^ x.rotate_right(18) ^ x.rotate_right(41)
    }

    fn small0(x: u64) -> u64 {
        x.rotate_right(1) ^ x.rotate_right(8) ^ (x >> 7)
    }

    fn small1(x: u64) -> u64 {
        x.rotate_right(19) ^ x.rotate_right(61) ^ (x >> 6)
    }

    fn read(bytes: &[u8]) -> u64 {
        if bytes.len() != 8 {
            return 0;
        }
        let mut own = [0u8; 8];
        own.copy_from_slice(bytes);
        u64::from_be_bytes(own)
    }

    fn write(x: u64, out: &mut [u8]) {
        if out.len() == 8 {
            out.copy_from_slice(&x.to_be_bytes());
        }
    }

    ghost bytes_are = { refl };

    ghost length_is = { refl };

    ghost bytes_fit = { (lit≤ tt, lit≤ tt) };
}

impl Sha2<80, 64> for Sha512Words {
    ghost rounds_are = { (lit≤ tt, refl) };

    ghost size_is = { refl };
}
