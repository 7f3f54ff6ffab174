// What is wrong with a file, or with standard output, each told in a line on standard error.
ghost use Rattle.std.specs.Prelude.{◌≡◌, ◌≢◌};
ghost use Rattle.std.specs.IoError.{error_kind};

use std::alloc::{AllocError, AllocFailed};
use std::fmt::Display;
use std::io;
use std::io::ErrorKind;

// Why the program goes no further. A file has its name.
#[derive(Drop)]
pub enum Fault<'a> {
    Unopened(&'a [u8], io::Error),
    // A read of the file failed: what came of it is not all.
    Unread(&'a [u8]),
    // What a line has to be, and the number of one that is not.
    Malformed {
        name: &'a [u8],
        line: u64,
        form: &'static str,
    },
    // The file takes no more.
    Unwritten(&'a [u8]),
    // Nor does standard output.
    Lost,
    OutOfMemory,
}

impl<'a> Fault<'a> {
    // Why a read of the file failed: memory had no room for what came, or the file cannot be read.
    pub fn of_read(name: &'a [u8], why: &io::Error) -> Fault<'a>
        ensures memory { error_kind why.now ≡ ErrorKind.OutOfMemory → result ≡ Fault.OutOfMemory }
        ensures file { error_kind why.now ≢ ErrorKind.OutOfMemory → result ≡ Fault.Unread name.entry }
    {
        if why.kind() == ErrorKind::OutOfMemory {
            Fault::OutOfMemory
        } else {
            Fault::Unread(name)
        }
    }
}

impl From<AllocError> for Fault<'_> {
    fn from(_e: AllocError) -> Self {
        Fault::OutOfMemory
    }
}

impl<T: Drop> From<AllocFailed<T>> for Fault<'_> {
    fn from(_e: AllocFailed<T>) -> Self {
        Fault::OutOfMemory
    }
}

// A line that cannot be written is told nowhere. A name may have any bytes.
fn tell_of(rt: &HostRuntime, name: &[u8], what: impl Display + Drop) {
    let _ = rt.stderr().write_all(name);
    let _ = eprintln!(rt; ": {what}");
}

// The system's words, without the number that stands behind them.
fn tell_reason(rt: &HostRuntime, name: &[u8], why: io::Error) {
    match why.to_string(rt.alloc()) {
        Ok(text) => match text.split_once(" (os error ") {
            Some((words, _)) => tell_of(rt, name, words),
            None => tell_of(rt, name, text.as_str()),
        },
        Err(_) => tell_of(rt, name, why),
    }
}

pub fn tell(rt: &HostRuntime, fault: Fault<'_>) {
    match fault {
        Fault::Unopened(name, why) => tell_reason(rt, name, why),
        Fault::Unread(name) => tell_of(rt, name, "cannot be read"),
        Fault::Malformed { name, line, form } => {
            tell_of(rt, name, format_args!("line {line}: {form}"));
        }
        Fault::Unwritten(name) => tell_of(rt, name, "cannot be written"),
        Fault::Lost => tell_of(rt, b"standard output", "cannot be written"),
        Fault::OutOfMemory => tell_of(rt, b"ouiread", "out of memory"),
    }
}
