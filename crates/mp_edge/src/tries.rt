ghost use Rattle.std.specs.Prelude.{◌≡◌, ◌↔◌, IsTrue};
ghost use Rattle.std.specs.IoError.{error_kind};
ghost use Rattle.mp_edge.specs.Answers.{failed_by};
ghost use Rattle.mp_edge.specs.Interrupts.{is_hard, is_interrupt};

use std::io::{self, Error, ErrorKind};

/// How often a read or a write is tried in all where a signal interrupts it each time.
pub const TRIES: u32 = 16;

// Whether a call may be tried again.
pub(crate) fn is_interrupted(error: &Error) -> bool
    ensures kind { IsTrue result ↔ (error_kind error.now ≡ ErrorKind.Interrupted) }
    ensures test { result ≡ is_interrupt (error_kind error.now) }
{
    error.kind() == ErrorKind::Interrupted
}

// Whether a call ended with an error after which it is not tried again.
pub(crate) fn is_hard_answer(answer: &io::Result<usize>) -> bool
    ensures { result ≡ failed_by is_hard answer.now }
{
    match answer {
        Ok(_) => false,
        Err(error) => !is_interrupted(error),
    }
}
