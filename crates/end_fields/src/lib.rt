// The three fields that claim an end of the show (request #101), each from the head or the trailer: found, and read.
#![tactic(auto)]

mod found; // the fields of a head and a trailer by their name
mod texts; // what the digest and the size say
mod reading; // all three

pub use found::{has, is_once, value_of};
pub use reading::{EndParts, EndRead, is_claimed, read_end};
pub use texts::{read_data_size, read_digest};
