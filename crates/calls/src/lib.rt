// The calls that bring no bytes, an answer and the end, and what all calls of the reader share.
#![tactic(auto)]

mod answering; // an answer to an open question
mod ending; // the end of the stream
mod outcome; // what a call gives, and what stands before every call

pub use answering::answer;
pub use ending::end;
pub use outcome::{Outcome, are_roomy, ended, is_reading, recalled, told, unchanged};
