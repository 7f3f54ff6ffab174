// What one byte of a block's data or of its end does: it is gathered, and what is whole with it is judged.
#![tactic(auto)]

mod data; // a block's data, and the CR LF after it
mod runs; // a run of data at once

pub use data::{push_data, push_data_end};
pub use runs::{Passed, skip};
