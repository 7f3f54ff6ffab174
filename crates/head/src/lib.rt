// A head read: the table of its fields and what its signature fields say, or the first rule that it breaks.
#![tactic(auto)]

mod lines; // the status line and the field lines
mod plain; // the version, the status and the fields that are compared with fixed text
mod signed; // the fields that hold parameters
mod status; // the status, and the part of the body that comes with 206
mod whole; // a head read whole

pub use signed::Signed;
pub use status::signed_status;
pub use whole::{HeadRead, read};
