// The program's arguments, as bytes.
use std::alloc::AllocError;
use std::env::{Env, FillError};

// No more than nine are ever right: of a longer list so many tell that it is not.
const MOST: usize = 10;

// So many bytes of an argument are held; the name of a file that can be opened has fewer.
const WORD_ROOM: usize = 4096;

// Argument i, where it is there. There is nothing of it where it has more bytes than the room.
fn word(rt: &HostRuntime, i: usize) -> Result<Option<Vec<u8>>, AllocError> {
    let mut room = [0; WORD_ROOM];
    let length = match rt.arg(i, &mut room) {
        Ok(n) => n,
        Err(FillError::TooLong) => 0,
        Err(FillError::NotPresent) => return Ok(None),
    };
    Ok(Some(room[..length].to_vec(rt.alloc())?))
}

// Those behind the program's name, as many as are looked at.
pub fn words(rt: &HostRuntime) -> Result<Vec<Vec<u8>>, AllocError> {
    let mut all = Vec::new(rt.alloc());
    for i in 1..=MOST {
        let Some(word) = word(rt, i)? else {
            break;
        };
        all.push(word)?;
    }
    Ok(all)
}
