ghost use Rattle.std.specs.Prelude.{◌≡◌, ◌++◌, ◌∷◌, [], ◌<◌, OnOk, OnErr, length};

use mp_base::{Bytes, Memory, TextLine, TextLines};
use thiserror::Error;

/// What a command does, with its numbers; a number that was left out is None.
#[derive(Drop)]
pub enum Verb {
    /// A line without a word.
    Nothing,
    /// `insert n k`: lines behind a line, or before the first where `after` is 0.
    Insert { after: u32, count: u32 },
    /// `delete a b`
    Delete { first: u32, last: u32 },
    /// `replace a b k`: lines in place of those from the first to the last.
    Replace { first: u32, last: u32, count: u32 },
    /// `sub l c d`: bytes in place of so many bytes of a line, from a column on.
    Sub { line: u32, column: u32, count: u32 },
    /// `back v`
    Back { version: u32 },
    /// `text [v]`
    Text { version: Option<u32> },
    /// `list [v]`
    List { version: Option<u32> },
    /// `ready`
    Ready,
    /// `input k`
    Input { count: u32 },
    /// `break l`
    Break { line: u32 },
    /// `clear l`
    Clear { line: u32 },
    /// `run [n]`
    Run { steps: Option<u32> },
    /// `go [n]`
    Go { steps: Option<u32> },
    /// `step [n]`
    Step { steps: Option<u32> },
    /// `show access`, with the access as it stands in the line, without spaces and tabs at its ends.
    Show { access: Bytes },
    /// `where`
    Chain,
    /// `kill`
    Kill,
    /// `quit`
    Quit,
}

/// A command, and those of the lines it takes that it was given so far.
#[derive(Drop)]
pub struct Command {
    pub verb: Verb,
    /// How many lines the command takes from those that follow it.
    pub wants: u32,
    pub lines: TextLines,
}

/// Why a line gives no command.
#[derive(Clone, Copy, Debug, PartialEq, Eq, Error)]
pub enum BadLine {
    /// The line is longer than `COMMAND_LIMIT` bytes, or it has no command's form.
    #[error("bad command")]
    Bad,
    /// Want of memory.
    #[error("out of memory")]
    Memory,
}

impl Command {
    /// Gives the command one more of the lines that it takes; want of memory leaves it as it is.
    pub fn take(&mut self, line: TextLine) -> Result<(), Memory>
        requires { length self.old.lines < self.old.wants }
        ensures ok { OnOk result (self.new ≡ record { verb = self.old.verb; wants = self.old.wants; lines = self.old.lines ++ line ∷ [] }) }
        ensures err { OnErr result (self.new ≡ self.old) }
    {
        self.lines.push(line)
    }
}
