// What a call leaves, written down: the state after it and its result, the word, how many bytes were taken, the word's two numbers, and
// a signature.
#![tactic(auto)]

mod telling; // the result
mod writing; // the state and the result

pub use telling::{RESULT_SIZE, tell};
pub use writing::{are_long, finish};
