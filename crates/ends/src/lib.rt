// The end of the show (request #101): a trailer judged, with what it and the head claim of the body.
#![tactic(auto)]

mod lists; // the names that Sig1 lists
mod faults; // the first broken rule of the end
mod asking; // the question over Sig1
mod trailer; // a trailer judged

pub use trailer::{Asked, judge};
