// Lines by themselves: a field line, the status line, and a trailer, whose lines are field lines.
#![tactic(auto)]

mod entry; // where a field's name and value lie
mod line; // one field line, and the status line
mod lines; // the lines of a text, with their places
mod search; // the fields of a trailer by their name
mod trailer; // a trailer, whose fields are not kept

pub use entry::Entry;
pub use line::{field_line, is_status_line};
pub use lines::{Lines, lines_from};
pub use search::{count_in, value_in};
pub use trailer::{ends_trailer, is_trailer};
