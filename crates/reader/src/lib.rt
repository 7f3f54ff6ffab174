// The reader: what a caller feeds, answers and ends, and what is handed out to it. Its state goes in and comes back by value,
// and the bytes that it gathers lie in three lent buffers.
#![tactic(auto)]

mod feeding; // a piece of the stream

pub use calls::{Outcome, answer, end};
pub use feeding::feed;
pub use handing::{block_part, field_count, field_part};
pub use state::{Reader, Word, fresh};
