// Byte strings compared, and lines: each function takes bytes and numbers as they come, and its contract says what it answers
// by the definitions of the crate `stream` and of this one.
#![tactic(auto)]

mod compare; // byte strings compared, with case and without
mod lines; // where a line ends, and whether a text ends with one

pub use compare::{lower, same, same_name, starts_with};
pub use lines::{ends_line, ends_twice, is_crlf, line_end};
