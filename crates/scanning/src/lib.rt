// Texts held against their forms, a byte at a turn: whether a text is good, and how many of its first bytes some good text also has. One loop does
// it for all forms of heads, lines and trailers.
#![tactic(auto)]

mod state; // what is still to come of a text
mod chunk_steps; // a byte of a chunk line
mod field_steps; // a byte of a head or a trailer
mod scan; // the loop
mod texts; // each kind of text
mod section_places; // where a section that is refused went wrong

pub use section_places::{head_place, line_place, trailer_place};
pub use texts::{chunk_line, data_end, field_line, head, name, status_line, trailer};
