// The values of the fields `X-Ouinet-Injection`, `X-Ouinet-BSigs` and `X-Ouinet-Sig0`; `X-Ouinet-Sig1` is written as the last.
#![tactic(auto)]

mod bsigs; // a key and the size of a block
mod injection; // an id and a time
mod parts; // a value gone through part by part
mod sig0; // a key, a time, the signed names and a signature

pub use bsigs::{Bsigs, read_bsigs};
pub use injection::{Injection, read_injection};
pub use sig0::{Sig0, read_sig0};
