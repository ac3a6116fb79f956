ghost use Rattle.std.specs.Prelude.{◌≤◌, length};

use crate::texts::show_byte;
use mp_base::Memory;
use mp_files::{FileEnd, Files};
use std::alloc::Global;

/// The greatest number of items that `rest` reads.
const MOST_ITEMS: u32 = 1000;

/// A run's files, and how many of them were made.
#[derive(Drop)]
pub struct Run {
    files: Files,
    count: u64,
    ghost made: { count ≤ length files.files },
}

/// What a call on a file answers.
#[derive(Drop)]
pub enum Answer {
    Done,
    Truth(bool),
    Number(i64),
    Shown(Option<u8>),
    Text(Vec<u8>),
    NoFile,
    NoCall,
}

impl Run {
    pub fn new(alloc: Global, input: &[u8]) -> Result<Run, Memory> {
        Ok(Run {
            files: Files::new(alloc, input)?,
            count: 2,
        })
    }

    pub fn make(&mut self, alloc: Global) -> Result<u64, Memory> {
        let number = self.files.make(alloc)?;
        self.count = number.saturating_add(1);
        Ok(number)
    }

    pub fn output(&self) -> &[u8] {
        self.files.output()
    }

    // Reads a file from its position to its end.
    fn rest(&mut self, alloc: Global, number: u64) -> Result<Answer, FileEnd> {
        let mut text = Vec::new(alloc);
        if number >= self.count {
            return Ok(Answer::NoFile);
        }
        for _ in 0..MOST_ITEMS {
            match self.next(&mut text, number) {
                Ok(()) => {}
                Err(FileEnd::Fault(11)) => break,
                Err(e) => return Err(e),
            }
        }
        Ok(Answer::Text(text))
    }

    // Adds the next item of a file.
    fn next(&mut self, text: &mut Vec<u8>, number: u64) -> Result<(), FileEnd> {
        if number >= self.count {
            return Ok(());
        }
        let is_end = self.files.eoln(number)?;
        let shown = self.files.shown(number);
        self.files.get(number)?;
        let added = match shown {
            Some(_) if is_end => text.extend_from_slice(b"/"),
            Some(byte) => show_byte(text, byte),
            None => text.extend_from_slice(b"?"),
        };
        match added {
            Ok(()) => Ok(()),
            Err(_) => Err(FileEnd::Memory),
        }
    }

    // A call that reads a file or begins it anew.
    fn read(&mut self, name: &str, number: u64) -> Result<Answer, FileEnd> {
        if number >= self.count {
            return Ok(Answer::NoFile);
        }
        match name {
            "eof" => Ok(Answer::Truth(self.files.eof(number)?)),
            "eoln" => Ok(Answer::Truth(self.files.eoln(number)?)),
            "shown" => Ok(Answer::Shown(self.files.shown(number))),
            "read_int" => Ok(Answer::Number(self.files.read_int(number)?)),
            "get" => {
                self.files.get(number)?;
                Ok(Answer::Done)
            }
            "read_line" => {
                self.files.read_line(number)?;
                Ok(Answer::Done)
            }
            "reset" => {
                self.files.reset(number)?;
                Ok(Answer::Done)
            }
            "rewrite" => {
                self.files.rewrite(number)?;
                Ok(Answer::Done)
            }
            _ => Ok(Answer::NoCall),
        }
    }

    // A call that writes to a file.
    fn write(&mut self, name: &str, number: u64, text: &[u8]) -> Result<Answer, FileEnd> {
        if number >= self.count {
            return Ok(Answer::NoFile);
        }
        match name {
            "write" => self.files.write(number, text)?,
            "put" => match text.first() {
                Some(byte) => self.files.put(number, *byte)?,
                None => return Ok(Answer::NoCall),
            },
            "write_line" => self.files.write_line(number)?,
            "page" => self.files.page(number)?,
            _ => return Ok(Answer::NoCall),
        }
        Ok(Answer::Done)
    }

    pub fn call(
        &mut self,
        alloc: Global,
        name: &str,
        number: u64,
        text: &[u8],
    ) -> Result<Answer, FileEnd> {
        match name {
            "rest" => self.rest(alloc, number),
            "write" | "put" | "write_line" | "page" => self.write(name, number, text),
            _ => self.read(name, number),
        }
    }
}
