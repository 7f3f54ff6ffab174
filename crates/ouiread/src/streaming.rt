// The stream, read in pieces of the lengths that are asked for, each fed to its last byte.
use crate::faults::Fault;
use crate::sitting::{Sitting, Stop};
use std::fs::File;
use std::io::Read;

// For a byte more than the longest piece has, so that it never grows.
fn room<'a>(rt: &HostRuntime, lengths: &[usize]) -> Result<Vec<u8>, Fault<'a>> {
    let most = lengths.iter().fold(0, |most: usize, n| most.max(*n));
    Ok(Vec::with_capacity(rt.alloc(), most.saturating_add(1))?)
}

// Reads the stream to its end, or until the program goes no further. The end is told only where it was seen: what came before a
// read that fails is fed like the rest, and then the failure is told.
pub fn read_all<'a>(
    rt: &HostRuntime,
    sitting: &mut Sitting<'a>,
    name: &'a [u8],
    stream: &mut File,
    lengths: &[usize],
) -> Result<(), Stop<'a>> {
    let mut piece = room(rt, lengths)?;
    for length in lengths.iter().cycle().take(usize::MAX) {
        piece.clear();
        let read = stream.by_ref().take(*length as u64).read_to_end(&mut piece);
        sitting.feed(rt, &piece)?;
        if let Err(why) = read {
            return Err(Stop::Fault(Fault::of_read(name, &why)));
        }
        if piece.len() < *length {
            return sitting.end(rt);
        }
    }
    Ok(())
}
