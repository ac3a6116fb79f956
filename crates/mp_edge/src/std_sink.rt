ghost use Rattle.std.specs.Prelude.{◌≡◌, ◌≢◌, ◌≤◌, ◌+◌, ◌⊎◌, None, length};
ghost use Rattle.std.specs.Io.KnownBytes.{Appends};
ghost use Rattle.mp_edge.specs.Causes.{Rose, RoseBy, counted};
ghost use Rattle.mp_edge.specs.Answers.{accepted, write_failed, IsPart};
ghost use Rattle.mp_edge.specs.Adapters.{failure_count, fault_count, hard_fault_count, writer_of};

use crate::counting::count;
use crate::sink::{Put, Sink};
use crate::std_writer::{CountedWriter, put};
use crate::tries::TRIES;
use std::io::Write;

/// A sink over a writer of std. It tells no bytes; the clauses of `write` say what the writer holds, where the writer
/// tells it.
///
/// Each error of the writer is a fault, and so is a write that takes no byte of a piece that is not empty. A write
/// that a signal interrupted is tried again, [`TRIES`] times in all; any other fault, and the last of these, is
/// answered `Failed`.
#[derive(Drop)]
pub struct StdSink<W: Write> {
    writer: CountedWriter<W>,
    failures: u64,
}

impl<W: Write> StdSink<W> {
    /// A sink over this writer.
    pub fn new(writer: W) -> StdSink<W>
        ensures writer { writer_of result ≡ writer }
        ensures faults { fault_count result ≡ 0 }
        ensures hard { hard_fault_count result ≡ 0 }
        ensures failures { failure_count result ≡ 0 }
    {
        StdSink {
            writer: CountedWriter::new(writer),
            failures: 0,
        }
    }
}

impl<W: Write> Sink for StdSink<W> {
    ghost written = { λ _. None };

    ghost faults = { fault_count };

    ghost failures = { failure_count };

    ghost quiet = { λ _. ⊥ };

    fn write(&mut self, bytes: &[u8]) -> Put
        // The bytes that are taken, and held by the writer.
        ensures part { IsPart result (length bytes.now) }
        ensures holds { Appends (W.contents (writer_of self.old)) (W.contents (writer_of self.new)) (accepted result bytes.now) }

        // What goes wrong.
        ensures later { fault_count self.old ≤ fault_count self.new }
        ensures failed { result ≡ Put.Failed → Rose (fault_count self.old) (fault_count self.new) }
        ensures failures { failure_count self.new ≡ counted (write_failed result) (failure_count self.old) }

        // What is tried again.
        ensures tries { fault_count self.new ≤ fault_count self.old + TRIES }
        ensures hard { result ≢ Put.Failed → hard_fault_count self.new ≡ hard_fault_count self.old }
        ensures once { hard_fault_count self.new ≤ hard_fault_count self.old + 1 }
        ensures given_up { result ≡ Put.Failed → Rose (hard_fault_count self.old) (hard_fault_count self.new) ⊎ RoseBy TRIES (fault_count self.old) (fault_count self.new) }
    {
        if bytes.is_empty() {
            return Put::Took(0);
        }
        let answer = put(&self.writer.write(bytes));
        self.failures = count(answer.is_failed(), self.failures);
        answer
    }
}
