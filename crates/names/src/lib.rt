// The list of names that a signature covers: read, and held against the fields of the head.
#![tactic(auto)]

mod doubled; // two names that are the same
mod list; // the names one by one
mod reading; // a text split into names
mod rules; // the rules of the list

pub use doubled::is_doubled;
pub use list::{among, count, name, name_at};
pub use reading::{Names, read_names};
pub use rules::is_list;
