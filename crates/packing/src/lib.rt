// Numbers and runs of bytes at the places of a buffer, and a key ring that is written so. Every number is 8 bytes, the lowest first.
// Bytes past a buffer's end are read as 0, and those that would go there are not written. A place that others are counted from is a
// u16, so that no sum of places is too large.
#![tactic(auto)]

mod keys; // a key ring
mod parts; // numbers and runs of bytes
mod words; // words, each as a number

pub use keys::keys_in;
pub use parts::{bytes, number_at, place, put_array, put_number, put_numbers};
pub use words::{put_words, words_at};
