// What one byte of a chunk line does: it is gathered in the state, and the line that is whole with it is judged.
#![tactic(auto)]

mod first_line; // the first line, and what all lines share
mod next_line; // the line after a block, with its signature

pub use first_line::{announced, push_first_line};
pub use next_line::{body_with, push_next_line, released_with};
