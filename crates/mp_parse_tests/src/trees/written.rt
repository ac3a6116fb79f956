use itoa::Buffer;
use std::alloc::{AllocError, Global};

/// Want of memory is all that can keep an answer from being written.
pub type Outcome = Result<(), AllocError>;

/// What is written for a text: words, and lists of words and lists. A space stands before each but the first of a list
/// and of a line.
#[derive(Drop)]
pub struct Written {
    bytes: Vec<u8>,
}

impl Written {
    /// Nothing yet.
    pub fn new(alloc: Global) -> Written {
        Written {
            bytes: Vec::new(alloc),
        }
    }

    /// What is written.
    pub fn bytes(&self) -> &[u8] {
        self.bytes.as_slice()
    }

    /// Adds these bytes as they are.
    pub fn add(&mut self, bytes: &[u8]) -> Outcome {
        self.bytes.extend_from_slice(bytes)
    }

    // The space before what comes next.
    fn gap(&mut self) -> Outcome {
        match self.bytes.last() {
            None | Some(b'(' | b'\n' | b' ') => Ok(()),
            Some(_) => self.add(b" "),
        }
    }

    fn decimal(&mut self, value: u64) -> Outcome {
        let mut buffer = Buffer::new();
        self.add(buffer.format(value).as_bytes())
    }

    // What shows the ordinal of the token that was written.
    fn at(&mut self, ordinal: u32) -> Outcome {
        self.add(b"@")?;
        self.decimal(u64::from(ordinal))
    }

    /// `word`
    pub fn word(&mut self, word: &str) -> Outcome {
        self.gap()?;
        self.add(word.as_bytes())
    }

    /// `word@ordinal`
    pub fn token(&mut self, word: &str, ordinal: u32) -> Outcome {
        self.word(word)?;
        self.at(ordinal)
    }

    /// `name@ordinal`
    pub fn name(&mut self, name: &[u8], ordinal: u32) -> Outcome {
        self.gap()?;
        self.add(name)?;
        self.at(ordinal)
    }

    /// `'characters'@ordinal`
    pub fn text(&mut self, characters: &[u8], ordinal: u32) -> Outcome {
        self.gap()?;
        self.add(b"'")?;
        self.add(characters)?;
        self.add(b"'")?;
        self.at(ordinal)
    }

    /// `value@ordinal`
    pub fn number(&mut self, value: u64, ordinal: u32) -> Outcome {
        self.count(value)?;
        self.at(ordinal)
    }

    /// `value`
    pub fn count(&mut self, value: u64) -> Outcome {
        self.gap()?;
        self.decimal(value)
    }

    /// Begins a list.
    pub fn open(&mut self) -> Outcome {
        self.word("(")
    }

    /// Begins a list with this word: `(word`
    pub fn open_word(&mut self, word: &str) -> Outcome {
        self.open()?;
        self.word(word)
    }

    /// Begins a list with this token: `(word@ordinal`
    pub fn open_token(&mut self, word: &str, ordinal: u32) -> Outcome {
        self.open()?;
        self.token(word, ordinal)
    }

    /// Ends a list.
    pub fn close(&mut self) -> Outcome {
        self.add(b")")
    }
}
