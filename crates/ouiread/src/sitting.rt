// One reading of one stream: its events are written, and its questions answered.
use crate::answers::Answers;
use crate::faults::Fault;
use crate::tallying::counted;
use crate::{events, lending};
use limits::{BLOCK_LIMIT, HEAD_LIMIT};
use reader::Outcome;
use ring::KeyRing;
use state::{Reader, Word, goes_on};
use std::fs::File;
use std::io::Write;
use tally::Tally;

// Why no more of the stream is read.
#[derive(Drop)]
pub enum Stop<'a> {
    // The last event is told, or no answer is left.
    Over,
    Fault(Fault<'a>),
}

impl<'a> From<Fault<'a>> for Stop<'a> {
    fn from(fault: Fault<'a>) -> Self {
        Stop::Fault(fault)
    }
}

// A file to be written, and its name.
#[derive(Drop)]
pub struct Body<'a> {
    pub name: &'a [u8],
    pub file: File,
}

// What is asked of the stream: whose keys are trusted, which URI is wanted, and whether places are told.
// Kept (DESIGN-PASS 1): the flag is an option of its own, and says nothing of another field.
#[derive(Clone, Copy)]
pub struct Terms<'a> {
    pub ring: KeyRing,
    pub uri: &'a [u8],
    pub places: bool,
}

// The reader and its buffers, the answers that are left, the file for the body where one is asked for, and what was counted.
#[derive(Drop)]
pub struct Sitting<'a> {
    pub reader: Reader,
    pub head: [u8; HEAD_LIMIT],
    block: [u8; BLOCK_LIMIT],
    question: [u8; HEAD_LIMIT],
    pub terms: Terms<'a>,
    answers: Answers<'a>,
    body: Option<Body<'a>>,
    pub tally: Tally,
}

impl<'a> Sitting<'a> {
    // Before the first byte.
    pub fn new(terms: Terms<'a>, answers: Answers<'a>, body: Option<Body<'a>>) -> Sitting<'a> {
        Sitting {
            reader: reader::fresh(),
            head: [0; HEAD_LIMIT],
            block: [0; BLOCK_LIMIT],
            question: [0; HEAD_LIMIT],
            terms,
            answers,
            body,
            tally: tally::zero(),
        }
    }

    // Feeds a piece, and what is left of it after each event.
    pub fn feed(&mut self, rt: &HostRuntime, piece: &[u8]) -> Result<(), Stop<'a>> {
        let mut rest = piece;
        for _ in 0..u64::MAX {
            let o = self.feed_rest(rest);
            self.tell(rt, o)?;
            if goes_on(o.word) {
                break;
            }
            rest = &rest[o.taken.min(rest.len())..];
        }
        Ok(())
    }

    // Tells the reader that no bytes will follow.
    pub fn end(&mut self, rt: &HostRuntime) -> Result<(), Stop<'a>> {
        let o = reader::end(
            self.reader,
            &mut self.head,
            &mut self.block,
            &mut self.question,
        );
        self.tell(rt, o)
    }

    // Feeds the rest of a piece up to the first event.
    fn feed_rest(&mut self, rest: &[u8]) -> Outcome {
        lending::feed(
            self.reader,
            &mut self.head,
            &mut self.block,
            &mut self.question,
            self.terms.ring.records,
            self.terms.ring.count,
            self.terms.uri,
            rest,
        )
    }

    // Writes a call's event and, where it is a question, answers it and writes what the answer gives.
    fn tell(&mut self, rt: &HostRuntime, o: Outcome) -> Result<(), Stop<'a>> {
        self.take(rt, o)?;
        if let Word::Question { .. } = o.word {
            let after = self.answer()?;
            self.take(rt, after)?;
        }
        Ok(())
    }

    // Answers the open question.
    fn answer(&mut self) -> Result<Outcome, Stop<'a>> {
        let Some(good) = self.answers.next_answer()? else {
            return Err(Stop::Over);
        };
        Ok(reader::answer(
            self.reader,
            &mut self.head,
            &mut self.block,
            &mut self.question,
            good,
        ))
    }

    // Keeps what a call leaves, and counts and writes its event.
    fn take(&mut self, rt: &HostRuntime, o: Outcome) -> Result<(), Stop<'a>> {
        self.reader = o.reader;
        self.tally = counted(self.tally, o.word);
        if let Word::Block { .. } = o.word {
            self.write_block()?;
        }
        if events::tell(rt, o.word, self.terms.places).is_err() {
            return Err(Stop::Fault(Fault::Lost));
        }
        match o.word {
            Word::Closed(_) | Word::Complete(_) | Word::Refused(_) => Err(Stop::Over),
            _ => Ok(()),
        }
    }

    // A released block goes to the body's file, where one is asked for, before its line is written.
    fn write_block(&mut self) -> Result<(), Fault<'a>> {
        let Some(body) = &mut self.body else {
            return Ok(());
        };
        let block = reader::block_part(&self.block, self.reader.released);
        body.file
            .write_all(block)
            .map_err(|_| Fault::Unwritten(body.name))
    }
}
