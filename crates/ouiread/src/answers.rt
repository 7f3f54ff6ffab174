// The answers: the letters y and n in order, white space aside, read as they are needed.
use crate::faults::Fault;
use crate::files;
use std::fs::File;
use std::io::{BufRead, BufReader, Seek};

// So many bytes are read ahead at most.
const AHEAD: usize = 512;

// Whether a byte is passed over: white space is, and where all answers are gone over, they are too.
fn is_passed(b: u8, all: bool) -> bool {
    b.is_ascii_whitespace() | (all & ((b == b'y') | (b == b'n')))
}

// How many bytes at the front are passed over. Mostly all are, and one test of all of them is the quicker.
fn passed(bytes: &[u8], all: bool) -> usize {
    if bytes
        .iter()
        .fold(true, |so_far, b| so_far & is_passed(*b, all))
    {
        return bytes.len();
    }
    bytes.iter().take_while(|b| is_passed(**b, all)).count()
}

// The open file and its name, and the line that is read.
#[derive(Drop)]
pub struct Answers<'a> {
    name: &'a [u8],
    file: BufReader<File>,
    line: u64,
}

impl<'a> Answers<'a> {
    // Opens the answers. A file is gone over once beforehand, so that a wrong letter is told before any event; a pipe can be read only
    // once, and there it is told where it is met.
    pub fn open(rt: &HostRuntime, name: &'a [u8]) -> Result<Answers<'a>, Fault<'a>> {
        let mut file = files::open(rt, name)?;
        let is_file = file.rewind().is_ok();
        let ahead = BufReader::with_capacity(rt.alloc(), AHEAD, file);
        let Ok(file) = ahead else {
            return Err(Fault::OutOfMemory);
        };
        let mut answers = Answers {
            name,
            file,
            line: 1,
        };
        if is_file {
            answers.go_over()?;
        }
        Ok(answers)
    }

    // Reads all answers, and goes back to the first.
    fn go_over(&mut self) -> Result<(), Fault<'a>> {
        if self.next_letter(true)?.is_some() {
            return Err(self.wrong());
        }
        let _ = self.file.rewind();
        self.line = 1;
        Ok(())
    }

    // The next answer, where one is left.
    pub fn next_answer(&mut self) -> Result<Option<bool>, Fault<'a>> {
        match self.next_letter(false)? {
            None => Ok(None),
            Some(b'y') => Ok(Some(true)),
            Some(b'n') => Ok(Some(false)),
            Some(_) => Err(self.wrong()),
        }
    }

    // The first byte that is not passed over, if there is one; the file goes on behind it.
    fn next_letter(&mut self, all: bool) -> Result<Option<u8>, Fault<'a>> {
        for _ in 0..u64::MAX {
            let ahead = match self.file.fill_buf() {
                Ok(ahead) => ahead,
                Err(why) => return Err(Fault::of_read(self.name, &why)),
            };
            if ahead.is_empty() {
                break;
            }
            let count = passed(ahead, all);
            let lines = ahead.iter().take(count).filter(|b| **b == b'\n').count();
            let letter = ahead.get(count).copied();
            self.line = self.line.saturating_add(lines as u64);
            self.file.consume(count.saturating_add(1));
            if letter.is_some() {
                return Ok(letter);
            }
        }
        Ok(None)
    }

    fn wrong(&self) -> Fault<'a> {
        Fault::Malformed {
            name: self.name,
            line: self.line,
            form: "an answer is y or n",
        }
    }
}
