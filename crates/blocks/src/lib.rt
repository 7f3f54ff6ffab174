// Blocks: their numbers and offsets, the hash chain, and the message that a block's signature signs.
#![tactic(auto)]

mod hashes; // the hash chain
mod messages; // the message that a signature signs
mod offsets; // block numbers and byte offsets

pub use hashes::chain;
pub use messages::message;
pub use offsets::{BlockNumber, ByteOffset, block_at, offset_of};
