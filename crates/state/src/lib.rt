// What the reader keeps between calls: its state by subject, the words that it says, and the final refusal.
#![tactic(auto)]

mod buffers; // bytes cleared in a lent buffer
mod phase; // where the reader stands in the stream
mod reader; // the state
mod stepped; // what a byte leads to
mod word; // what a call says

pub use phase::{Phase, pending};
pub use reader::{Chain, Fixed, Reader, fresh, in_phase, with_chain, with_hash, with_line};
pub use stepped::{Stepped, refused, said};
pub use word::{Word, goes_on};
