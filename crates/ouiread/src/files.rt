// Files by their names.
use crate::faults::Fault;
use std::fs::File;
use std::io::{Error, ErrorKind, Read};
use std::{fs, io};

// A name is text: no file is found by bytes that are not UTF-8.
fn text_of(name: &[u8]) -> io::Result<&str> {
    str::from_utf8(name).map_err(|_| Error::from(ErrorKind::InvalidFilename))
}

// A folder opens, and no byte can be read from it.
fn try_open(rt: &HostRuntime, name: &[u8]) -> io::Result<File> {
    let mut file = fs::open(rt, text_of(name)?)?;
    file.read(&mut [0; 0])?;
    Ok(file)
}

fn try_create(rt: &HostRuntime, name: &[u8]) -> io::Result<File> {
    fs::create(rt, text_of(name)?)
}

// Opens a file to be read and sees that it can be.
pub fn open<'a>(rt: &HostRuntime, name: &'a [u8]) -> Result<File, Fault<'a>> {
    try_open(rt, name).map_err(|why| Fault::Unopened(name, why))
}

// Opens a file to be written.
pub fn create<'a>(rt: &HostRuntime, name: &'a [u8]) -> Result<File, Fault<'a>> {
    try_create(rt, name).map_err(|why| Fault::Unopened(name, why))
}

// Reads a file's first bytes, at most so many, which are the whole of a file that is good.
pub fn load<'a>(rt: &HostRuntime, name: &'a [u8], most: u64) -> Result<Vec<u8>, Fault<'a>> {
    let file = open(rt, name)?;
    let mut text = Vec::new(rt.alloc());
    match file.take(most).read_to_end(&mut text) {
        Ok(_) => Ok(text),
        Err(why) => Err(Fault::of_read(name, &why)),
    }
}
