//! Magpie: a Pascal environment on the command line.
//!
//! The program passes its words, its standard input and its standard output to `mp_cli::run_plain`, and exits with
//! the number of the status that this answers. It prints nothing itself.
#![tactic(auto)]

use mp_cli::{Status, run_plain};
use mp_edge::{StdSink, StdSource};
use std::process::ExitCode;
use std::{env, io};

// The words after the program's name.
fn words_of(rt: &HostRuntime) -> io::Result<Vec<String>> {
    let mut words = Vec::new(rt.alloc());
    for word in env::args(rt)?.skip(1) {
        words.push(word)?;
    }
    Ok(words)
}

// Does what the words ask for. Words that are no text are of no form.
fn status_of(rt: &HostRuntime) -> Status {
    match words_of(rt) {
        Ok(words) => {
            let mut source = StdSource::new(rt.stdin());
            let mut sink = StdSink::new(rt.stdout());
            run_plain(rt.alloc(), words.as_slice(), &mut source, &mut sink)
        }
        Err(error) if error.kind() == io::ErrorKind::OutOfMemory => Status::Memory,
        Err(_) => Status::Words,
    }
}

fn main(rt: HostRuntime) -> ExitCode {
    status_of(&rt).exit_code()
}
