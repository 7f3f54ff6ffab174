// `ouiread STREAM RING ANSWERS [CUTS [BODY]] --uri FILE [--tally] [--where]` reads a signature stream in pieces and writes a line for each event;
// the bytes of the URI's file are the URI that was asked for. Where it is asked for, a refusal's line says where the text went wrong, and a last
// line has the tally. A head with another URI gives one line on standard error too, with both. A file that is missing or malformed gives one line
// on standard error and no event. The exit status is 0 whatever comes: the lines tell.
#![tactic(auto)]

mod answers; // the letters y and n, read as they are needed
mod arguments; // the program's arguments
mod cuts; // the lengths of the pieces
mod events; // the lines of the events
mod faults; // what is wrong with a file, and how it is told
mod files; // files by their names
mod lending; // the ring as a lent table
mod options; // the files' names, and what is asked for after them
mod other_show; // what is said of a head with another URI
mod records; // the key ring's records
mod sitting; // a reading of a stream, from call to call
mod streaming; // the stream, piece by piece
mod tallying; // the tally, counted in place

use answers::Answers;
use cuts::PIECE_LIMIT;
use faults::Fault;
use limits::HEAD_LIMIT;
use options::Asked;
use sitting::{Body, Sitting, Stop, Terms};

// The lengths of the pieces: those of the file, where one is named.
fn lengths<'a>(rt: &HostRuntime, cuts: &'a Option<Vec<u8>>) -> Result<Vec<usize>, Fault<'a>> {
    match cuts {
        Some(name) => cuts::load(rt, name),
        None => Ok(vec![in rt.alloc(); PIECE_LIMIT]?),
    }
}

// The file for the body, where one is named.
fn create_body<'a>(
    rt: &HostRuntime,
    name: &'a Option<Vec<u8>>,
) -> Result<Option<Body<'a>>, Fault<'a>> {
    match name {
        Some(name) => {
            let file = files::create(rt, name)?;
            Ok(Some(Body { name, file }))
        }
        None => Ok(None),
    }
}

// A head's URI has fewer bytes than a head may have: a file that has as many, or more, is no head's URI. Its beginning is none either, and gives
// the same refusal.
fn run<'a>(rt: &HostRuntime, asked: &'a Asked) -> Result<(), Fault<'a>> {
    let uri = files::load(rt, &asked.uri, HEAD_LIMIT as u64)?;
    let ring = records::load(rt, &asked.ring)?;
    let answers = Answers::open(rt, &asked.answers)?;
    let lengths = lengths(rt, &asked.cuts)?;
    let mut stream = files::open(rt, &asked.stream)?;
    let body = create_body(rt, &asked.body)?;
    let terms = Terms {
        ring,
        uri: &uri,
        places: asked.places,
    };
    let mut sitting = Sitting::new(terms, answers, body);
    let end = streaming::read_all(rt, &mut sitting, &asked.stream, &mut stream, &lengths);
    conclude(rt, &sitting, end, asked.tally);
    Ok(())
}

// What is said after the last event: what went wrong, that it was another show, and the tally, where it is asked for and no line before it was lost.
fn conclude(rt: &HostRuntime, s: &Sitting<'_>, end: Result<(), Stop<'_>>, tally: bool) {
    let lost = matches!(end, Err(Stop::Fault(Fault::Lost)));
    if let Err(Stop::Fault(fault)) = end {
        faults::tell(rt, fault);
    }
    other_show::tell(rt, s.reader, &s.head, s.terms.uri);
    if tally && !lost && events::tell_tally(rt, s.tally).is_err() {
        faults::tell(rt, Fault::Lost);
    }
}

fn main(rt: HostRuntime) {
    let words = match arguments::words(&rt) {
        Ok(words) => words,
        Err(e) => return faults::tell(&rt, Fault::from(e)),
    };
    let Some(asked) = options::read(words) else {
        let _ = eprintln!(rt;
            "usage: ouiread STREAM RING ANSWERS [CUTS [BODY]] --uri FILE [--tally] [--where]"
        );
        return;
    };
    if let Err(fault) = run(&rt, &asked) {
        faults::tell(&rt, fault);
    }
}
