use std::alloc::{AllocError, Global};

/// A piece of a grammar's text.
#[derive(Debug, Drop, PartialEq, Eq)]
pub enum Piece {
    /// a token by its spelling, in quotes
    Quoted(String),
    /// a rule, or a kind of tokens
    Name(String),
    /// one of `= | [ ] { } ( )`
    Mark(char),
}

/// What is read of a grammar's text.
#[derive(Drop)]
struct Reader {
    pieces: Vec<Piece>,
    word: String,
    is_quoted: bool,
}

impl Reader {
    // Ends the word, if there is one.
    fn end_word(&mut self, alloc: Global) -> Result<(), AllocError> {
        if self.word.is_empty() {
            return Ok(());
        }
        let word = String::from_str(alloc, self.word.as_str())?;
        self.word.clear();
        let piece = if self.is_quoted {
            Piece::Quoted(word)
        } else {
            Piece::Name(word)
        };
        self.pieces.push(piece)?;
        Ok(())
    }

    fn character(&mut self, alloc: Global, c: char) -> Result<(), AllocError> {
        if c == '"' {
            self.end_word(alloc)?;
            self.is_quoted = !self.is_quoted;
        } else if self.is_quoted || c == '-' || c.is_ascii_alphabetic() {
            self.word.push(c)?;
        } else {
            self.end_word(alloc)?;
            if !c.is_ascii_whitespace() {
                self.pieces.push(Piece::Mark(c))?;
            }
        }
        Ok(())
    }
}

/// The pieces of a grammar's text, in order.
pub fn pieces(alloc: Global, text: &str) -> Result<Vec<Piece>, AllocError> {
    let mut reader = Reader {
        pieces: Vec::new(alloc),
        word: String::new(alloc),
        is_quoted: false,
    };
    for c in text.chars() {
        reader.character(alloc, c)?;
    }
    reader.end_word(alloc)?;
    Ok(reader.pieces)
}
