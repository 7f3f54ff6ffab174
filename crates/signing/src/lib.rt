// The signing string of a head, written into a lent buffer.
#![tactic(auto)]

mod line; // one line of the signing string
mod string; // the signing string

pub use string::{put_added, put_string};
