// The cases of the input, each judged and told in a line.
ghost use Rattle.std.specs.Prelude.{length};
ghost use Rattle.std.specs.Iterator.{at_most};

use judging::Asked;
use limits::HEAD_LIMIT;
use ranges::Extent;
use refusals::Refusal;
use ring::KeyRing;
use std::io;

// A head, and the label that its line begins with.
#[derive(Clone, Copy)]
pub struct Case<'a> {
    label: &'a [u8],
    head: &'a [u8],
}

// The cases that are left of an input.
#[derive(Clone, Copy)]
pub struct Cases<'a>(pub &'a [u8]);

impl<'a> Iterator for Cases<'a> {
    type Item = Case<'a>;

    ghost remaining = { λ s. at_most (length s.0.now) };

    // A label, a space and the length of the head, with at most 5 digits, in a line, and then the head.
    fn next(&mut self) -> Option<Case<'a>> {
        let input = self.0;
        let last = input.len().checked_sub(1)?;
        let space = input.iter().position(|b| *b == b' ').unwrap_or(last);
        let line = input.iter().position(|b| *b == b'\n').unwrap_or(last);
        let size = number::decimal(places::part(input, space + 1, line), 5).unwrap_or(0);
        let start = line + 1;
        let end = start.saturating_add(size as usize).min(input.len());
        self.0 = &input[end..];
        Some(Case {
            label: &input[..space],
            head: &input[start..end],
        })
    }
}

fn tell_refused(rt: &impl Print, why: Refusal) -> io::Result<()> {
    print!(rt; " refused {}", why.number)?;
    if refusals::has_place(why.number) {
        print!(rt; " at {}", why.at)?;
    }
    println!(rt)
}

// The bytes of the body that a part answer carries; of a whole one nothing is said.
fn tell_extent(rt: &impl Print, e: Extent) -> io::Result<()> {
    match e {
        Extent::Whole => Ok(()),
        Extent::Part { first, last, total } => {
            print!(rt; " part {}-{}/{total}", first.0, last.0)
        }
    }
}

impl Case<'_> {
    // The signature and the signing string, below the line of a case whose label asks for them.
    fn tell_string(&self, rt: &impl Print, signature: &[u8], string: &[u8]) -> io::Result<()> {
        if !self.label.starts_with(b"string-") {
            return Ok(());
        }
        print!(rt; "\nsignature ")?;
        rt.write_all(signature)?;
        println!(rt)?;
        rt.write_all(string)
    }

    // What an accepted head asks.
    fn tell_asked(&self, rt: &impl Print, asked: &Asked, question: &[u8]) -> io::Result<()> {
        print!(rt;
            " asks {} status {} size {}",
            asked.length, asked.status, asked.size
        )?;
        tell_extent(rt, asked.extent)?;
        print!(rt; " key {} id ", asked.key)?;
        rt.write_all(places::part(&asked.id, 0, asked.id_length))?;
        let string = places::part(question, 0, asked.length);
        self.tell_string(rt, &asked.signature, string)?;
        println!(rt)
    }

    // Judges the head and tells what comes of it. Whatever the head is, the same URI is asked for.
    pub fn judge(&self, rt: &impl Print, ring: KeyRing) -> io::Result<()> {
        let mut question = [0; HEAD_LIMIT];
        let uri = b"https://example.com/hello";
        let judged = judging::judge(self.head, ring, uri, &mut question);
        rt.write_all(self.label)?;
        match judged {
            Ok(asked) => self.tell_asked(rt, &asked, &question),
            Err(why) => tell_refused(rt, why),
        }
    }
}
