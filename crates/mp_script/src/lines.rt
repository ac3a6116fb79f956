ghost use Rattle.std.specs.Prelude.{◌≡◌, ◌≢◌, ◌++◌, [], IfOk, OnOk, OnErr, MatchOption, List, ℕ};
ghost use Rattle.mp_base.specs.Text.{IsLine, cut};

use mp_base::{Memory, TextLine, TextLines};
use std::alloc::Global;
use std::marker::Model;
use std::mem;

/// Takes the bytes of a script, in whatever pieces they come, and gives the lines that they end. Contracts see the bytes
/// of the line that is not ended yet.
#[derive(Drop)]
pub struct Lines {
    rest: Vec<u8>,
}

impl Model for Lines {
    ghost use Rattle.std.specs.Prelude.{List, ℕ};
    ghost use Rattle.mp_base.specs.Text.{IsLine};

    ghost Value = { List ℕ };

    ghost view = { λ lines. lines.rest.items };

    ghost invariant = { λ lines. IsLine lines.rest.items };
}

// The lines that some bytes end, and what follows the last of them.
fn cut_bytes(alloc: Global, bytes: &[u8]) -> Result<(Vec<TextLine>, Vec<u8>), Memory>
    ensures cut { IfOk result (λ parts. cut bytes.now ≡ record { whole = parts.0.items; rest = parts.1.items }) }
    ensures line { IfOk result (λ parts. IsLine parts.1.items) }
{
    let mut lines = Vec::new(alloc);
    let mut rest = Vec::new(alloc);
    'bytes: for byte in bytes {
        if *byte == b'\n' {
            let line = mem::replace(&mut rest, Vec::new(alloc));
            lines.push(TextLine::from_vec(line))?;
        } else {
            rest.push(*byte)?;
        }
    }
    Ok((lines, rest))
}

impl Lines {
    /// No bytes yet.
    pub fn new(alloc: Global) -> Lines
        ensures { result ≡ [] }
    {
        Lines {
            rest: Vec::new(alloc),
        }
    }

    /// Takes the next piece, and gives the lines that are ended now, without their line ends. Want of memory leaves the
    /// bytes as they were before.
    pub fn feed(&mut self, piece: &[u8]) -> Result<TextLines, Memory>
        ensures lines { IfOk result (λ lines. lines ≡ (cut (self.old ++ piece.now)).whole) }
        ensures rest { OnOk result (self.new ≡ (cut (self.old ++ piece.now)).rest) }
        ensures err { OnErr result (self.new ≡ self.old) }
    {
        let alloc = *self.rest.allocator();
        let mut at = 0;
        'bytes: while at < piece.len() && piece[at] != b'\n' {
            at += 1;
        }
        if at == piece.len() {
            self.rest.extend_from_slice(piece)?;
            return Ok(TextLines::new(alloc));
        }
        // What memory may be refused for comes first.
        let (mut lines, tail) = cut_bytes(alloc, &piece[at + 1..])?;
        lines.reserve(1)?;
        self.rest.reserve(at)?;
        self.rest.extend_from_slice(&piece[..at]).unwrap();
        let first = mem::replace(&mut self.rest, tail);
        lines.insert(0, TextLine::from_vec(first)).unwrap();
        Ok(TextLines::from_vec(lines))
    }

    /// The last line, where it is not ended: None exactly where no byte came after the last line end.
    pub fn finish(self) -> Option<TextLine>
        ensures { MatchOption result (self ≡ []) (λ line. (line ≡ self) × (self ≢ [])) }
    {
        if self.rest.is_empty() {
            None
        } else {
            Some(TextLine::from_vec(self.rest))
        }
    }
}
