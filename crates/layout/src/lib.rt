// The reader's state as bytes that a program in another language lends. Every number is 8 bytes, the lowest first.
#![tactic(auto)]

mod extents; // an extent as four numbers
mod phases; // a phase as three numbers
mod states; // the whole state

pub use states::{STATE_SIZE, load, store};
