// Chunk lines read and judged.
#![tactic(auto)]

mod judging; // a chunk line against the rules
mod reading; // the text of a chunk line

pub use judging::{Line, judge};
