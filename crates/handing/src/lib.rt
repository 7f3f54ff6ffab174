// What is handed out, as parts of lent buffers: the released block, and the values of the accepted head.
#![tactic(auto)]

mod released; // a block
mod signed; // the value of a signed field, and how many there are

pub use released::block_part;
pub use signed::{accepted_head, field_count, field_part};
