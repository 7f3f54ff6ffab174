// The lengths of the pieces, one a line, used in turn and again from the first.
use crate::faults::Fault;
use crate::files;

// A piece has at most so many bytes, and so has the text of the lengths.
pub const PIECE_LIMIT: usize = 65536;

const LINE_LIMIT: usize = 4096;

const FORM: &str = "a piece length is a number from 0 to 65536; at most 4096, and not all 0";

fn length_of(line: &[u8]) -> Option<usize> {
    let length = usize::try_from(number::decimal(line, 5).ok()?).ok()?;
    (length <= PIECE_LIMIT).then_some(length)
}

// The lengths. A line that is none is told by its number, as is the first of too many, and the last where all are 0.
pub fn load<'a>(rt: &HostRuntime, name: &'a [u8]) -> Result<Vec<usize>, Fault<'a>> {
    let malformed = |line| Fault::Malformed {
        name,
        line,
        form: FORM,
    };
    let text = files::load(rt, name, PIECE_LIMIT as u64)?;
    let mut lengths = Vec::new(rt.alloc());
    let mut last = 1;
    for (number, line) in (1..).zip(text.split_inclusive(|b| *b == b'\n')) {
        let length = length_of(line.strip_suffix(b"\n").unwrap_or(line));
        match length {
            Some(n) if lengths.len() < LINE_LIMIT => lengths.push(n)?,
            _ => return Err(malformed(number)),
        }
        last = number;
    }
    if lengths.iter().all(|n| *n == 0) {
        return Err(malformed(last));
    }
    Ok(lengths)
}
