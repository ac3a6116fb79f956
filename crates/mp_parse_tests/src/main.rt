//! The tests of the parser: a slow judge of it over short lists of tokens ([`judge`]), and texts with their trees and
//! errors ([`trees`]).
//!
//! `stdin` has the grammar, families of lists, a line `#####` and the texts; `stdout` has what the program must write:
//! each family and each text with its answer. The two parts share no line. They are one program because the proof of
//! any program over the parser takes long before its own code begins.
#![tactic(auto)]

mod judge;
mod trees;

use mp_base::Memory;
use std::alloc::Global;
use std::io::{self, ErrorKind, Read, Write};

// The line between the families and the texts.
const BETWEEN: &str = "#####\n";

fn answers(alloc: Global, input: &str) -> Result<Vec<u8>, Memory> {
    let mut out = Vec::new(alloc);
    let Some((families, texts)) = input.split_once(BETWEEN) else {
        return Ok(out);
    };
    out.extend_from_slice(judge::answers(alloc, families)?.as_bytes())?;
    out.extend_from_slice(BETWEEN.as_bytes())?;
    out.extend_from_slice(trees::answers(alloc, texts.as_bytes())?.bytes())?;
    Ok(out)
}

fn main(rt: HostRuntime) -> io::Result<()> {
    let alloc = rt.alloc();
    let mut input = String::new(alloc);
    rt.stdin().read_to_string(&mut input)?;
    let Ok(out) = answers(alloc, input.as_str()) else {
        return Err(ErrorKind::OutOfMemory.into());
    };
    io::writer(&rt).write_all(out.as_slice())
}
