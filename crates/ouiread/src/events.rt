// The events, each a line on standard output.
use refusals::Refusal;
use state::Word;
use std::io;
use tally::Tally;

// Where the text went wrong is told only where it is asked for, and only by the numbers that have such a place.
fn tell_refused(rt: &impl Print, why: Refusal, places: bool) -> io::Result<()> {
    if places & refusals::has_place(why.number) {
        return println!(rt; "refused {} at {}", why.number, why.at);
    }
    println!(rt; "refused {}", why.number)
}

// A call's word, where it is an event. An error where its line cannot be written.
pub fn tell(rt: &impl Print, word: Word, places: bool) -> io::Result<()> {
    match word {
        Word::More => Ok(()),
        Word::Question { length, .. } => println!(rt; "question {length}"),
        Word::Head(status) => println!(rt; "head {status}"),
        Word::Block { offset, length } => println!(rt; "block {} {length}", offset.0),
        Word::Closed(total) => println!(rt; "closed {total}"),
        Word::Complete(total) => println!(rt; "complete {total}"),
        Word::Refused(why) => tell_refused(rt, why, places),
    }
}

// The four counts, as one line.
pub fn tell_tally(rt: &impl Print, t: Tally) -> io::Result<()> {
    println!(rt;
        "tally blocks {} bytes {} closed {} refused {}",
        t.blocks, t.bytes, t.closed, t.refused
    )
}
