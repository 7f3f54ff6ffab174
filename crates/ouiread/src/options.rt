// What the program is asked for: the names of three to five files, and behind them the options, in any order and each at most once: --uri with its
// file, which must be there, --tally and --where.

// The files' names, and what else is asked for.
// Kept (DESIGN-PASS 1): a flag here is an option of its own, and says nothing of another field.
#[derive(Drop)]
pub struct Asked {
    pub stream: Vec<u8>,
    pub ring: Vec<u8>,
    pub answers: Vec<u8>,
    pub cuts: Option<Vec<u8>>,
    pub body: Option<Vec<u8>>,
    pub uri: Vec<u8>,
    pub tally: bool,
    pub places: bool,
}

// The options that are read so far, and whether the next word is the name of the URI's file, whatever it is.
#[derive(Default, Drop)]
struct Options {
    uri: Option<Vec<u8>>,
    uri_is_next: bool,
    tally: bool,
    places: bool,
}

impl Options {
    // The options with a word more. There are none where it is unknown, or there twice, or a file.
    fn with(mut self, word: Vec<u8>) -> Option<Options> {
        if self.uri_is_next {
            self.uri_is_next = false;
            self.uri = Some(word);
            return Some(self);
        }
        match word.as_slice() {
            b"--uri" if self.uri.is_none() => self.uri_is_next = true,
            b"--tally" if !self.tally => self.tally = true,
            b"--where" if !self.places => self.places = true,
            _ => return None,
        }
        Some(self)
    }
}

fn is_file(word: &Vec<u8>) -> bool {
    !word.starts_with(b"--")
}

// What the words ask for, where they are as they should be.
pub fn read(words: Vec<Vec<u8>>) -> Option<Asked> {
    let mut words = words.into_iter().peekable();
    let stream = words.next_if(is_file)?;
    let ring = words.next_if(is_file)?;
    let answers = words.next_if(is_file)?;
    let cuts = words.next_if(is_file);
    let body = words.next_if(is_file);
    let mut options = Options::default();
    for word in words {
        options = options.with(word)?;
    }
    Some(Asked {
        stream,
        ring,
        answers,
        cuts,
        body,
        uri: options.uri?,
        tally: options.tally,
        places: options.places,
    })
}
