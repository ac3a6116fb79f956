//! The tests of `mp_files`: a table of calls, each with its answer worked out by hand.
//!
//! `stdin` has a call a line and `stdout` the same lines, each with its answer behind it, so that it is the page to read.
//! A line that begins with `#` says what the lines below it show. A run begins with `run`; its files are numbered as
//! `make` makes them, file 0 being `input` and file 1 `output`.
//!
//! | Call | What it does |
//! |---|---|
//! | `run T` | begins a run with the input T |
//! | `make` | makes a file and answers its number |
//! | `eof N`, `eoln N`, `shown N`, `get N`, `read_line N`, `read_int N` | the call on file N |
//! | `reset N`, `rewrite N`, `write_line N`, `page N`, `put N T`, `write N T` | the call on file N; `put` takes T's first byte |
//! | `many N K` | writes K times the character x to file N |
//! | `rest N` | reads file N from its position to its end, item by item |
//! | `output`, `size` | the bytes of `output`, and how many they are |
//! | `int W V`, `bool W V`, `chars W T` | the field of that width |
//!
//! In a text T `_` is a space, `\n` byte 10, `\f` byte 12 and `\t` byte 9; in an answer a line end that is read is `/`, and
//! a text stands in quotes.
#![tactic(auto)]

mod calls;
mod run;
mod texts;

use std::io::{self, ErrorKind, Read, Write};

fn main(rt: HostRuntime) -> io::Result<()> {
    let alloc = rt.alloc();
    let mut input = String::new(alloc);
    rt.stdin().read_to_string(&mut input)?;
    let Ok(out) = calls::answers(alloc, input.as_str()) else {
        return Err(ErrorKind::OutOfMemory.into());
    };
    io::writer(&rt).write_all(out.as_slice())
}
