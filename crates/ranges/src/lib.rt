// Which bytes of the body an answer carries: all of them, or a part (request #104).
#![tactic(auto)]

mod extent; // whole or part, and what a chunk may take of it
mod numbers; // a number after fixed text
mod reading; // what `Content-Range` says

pub use extent::{Extent, first_byte, is_within};
pub use reading::read;
