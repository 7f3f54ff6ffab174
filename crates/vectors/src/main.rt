// Runs published vectors and boundary cases over the libraries, and writes a line for each. The file `stdout`, which the run is held to,
// is computed by other implementations of the same documents (see expected.py).
#![tactic(auto)]

mod digests;
mod lines;
mod parts;
mod texts;

use std::io;

fn main(rt: HostRuntime) -> io::Result<()> {
    digests::sha512_lines(&rt)?;
    digests::chain(&rt)?;
    digests::sha256_lines(&rt)?;
    parts::messages(&rt)?;
    texts::short_texts(&rt)?;
    texts::keys(&rt)?;
    texts::signatures(&rt)?;
    texts::stops(&rt)
}
