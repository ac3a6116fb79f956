//! The tests of a desk and of `relex`: after each edit of a script the tokens and errors are those that `lex` gives of
//! the whole text.
//!
//! `stdin` is a script of edits in the form of Magpie's commands. Behind the last one the program writes how many edits
//! were made, how many were refused, and after how many of all these the two lists differ, which must be none; for each
//! command `ready` it writes how many bytes of the new text the command before it read. Where the script goes back to a
//! version, the tokens are compared with those of that version, too. `script.py` made the script, and counts its edits
//! by itself.
#![tactic(auto)]

mod edits;
mod same;

use std::io::{self, ErrorKind, Read, Write};

fn main(rt: HostRuntime) -> io::Result<()> {
    let alloc = rt.alloc();
    let mut script = Vec::new(alloc);
    rt.stdin().read_to_end(&mut script)?;
    let Ok(out) = edits::answers(alloc, script.as_slice()) else {
        return Err(ErrorKind::OutOfMemory.into());
    };
    io::writer(&rt).write_all(out.as_slice())
}
