ghost use Rattle.std.specs.Prelude.{◌≡◌};
ghost use Rattle.std.specs.Process.{exit_status};
ghost use Rattle.mp_cli.specs.Top.{number_of};

use std::process::ExitCode;

/// How a top call ended.
#[derive(Clone, Copy, Debug, PartialEq, Eq)]
pub enum Status {
    /// All was read, obeyed and written.
    Done,
    /// The words are of no form that the call takes; nothing was read or written.
    Words,
    /// A read failed.
    ReadFault,
    /// A write failed.
    WriteFault,
    /// Memory was wanting.
    Memory,
    /// As many bytes were taken as a script may have.
    ScriptLimit,
}

impl Status {
    /// The number of the status, with which the program exits.
    pub fn number(self) -> u8
        ensures { result ≡ number_of self }
    {
        match self {
            Status::Done => 0,
            Status::Words => 1,
            Status::ReadFault => 2,
            Status::WriteFault => 3,
            Status::Memory => 4,
            Status::ScriptLimit => 5,
        }
    }

    /// What `main` returns, so that the program exits with this status's number.
    pub fn exit_code(self) -> ExitCode
        ensures { exit_status result ≡ number_of self }
    {
        ExitCode::from(self.number())
    }
}
