// The fields of a head as a table of places in its text: read, and looked up by their names.
#![tactic(auto)]

mod doubled; // two fields of one name that must not be there twice
mod lookup; // fields by their name
mod reading; // the field lines of a head, as a table
mod table; // the table of a head's fields

pub use doubled::is_doubled;
pub use lookup::{count_of, find, has, is_named, value_of};
pub use reading::read_fields;
pub use table::{Fields, count, none};
