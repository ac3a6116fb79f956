ghost use Rattle.std.specs.Prelude.{◌≡◌, ◌≢◌, ◌≤◌, ◌+◌, ◌⊎◌, None, length};
ghost use Rattle.std.specs.Io.KnownBytes.{Consumes, IsAtEnd};
ghost use Rattle.mp_edge.specs.Causes.{Rose, RoseBy, counted};
ghost use Rattle.mp_edge.specs.Answers.{given, got_of, read_failed, IsWithin};
ghost use Rattle.mp_edge.specs.Adapters.{error_count, failed_read_count, hard_error_count, reader_of};

use crate::counting::count;
use crate::source::{Got, Source};
use crate::std_reader::CountedReader;
use crate::tries::TRIES;
use std::io::{self, Read};

// What std's answer to a read with room means.
fn got(answer: &io::Result<usize>) -> Got
    ensures { result ≡ got_of answer.now }
{
    match answer {
        Ok(0) => Got::End,
        Ok(count) => Got::Bytes(*count),
        Err(_) => Got::Failed,
    }
}

/// A source over a reader of std. What is left is what the reader has left, where the reader tells it; the bytes
/// given so far are not told.
///
/// Each error of the reader is a fault. A read that a signal interrupted is tried again, [`TRIES`] times in all; any
/// other error, and the last of these, is answered `Failed`.
#[derive(Drop)]
pub struct StdSource<R: Read> {
    reader: CountedReader<R>,
    failures: u64,
}

impl<R: Read> StdSource<R> {
    /// A source over this reader.
    pub fn new(reader: R) -> StdSource<R>
        ensures reader { reader_of result ≡ reader }
        ensures faults { error_count result ≡ 0 }
        ensures hard { hard_error_count result ≡ 0 }
        ensures failures { failed_read_count result ≡ 0 }
    {
        StdSource {
            reader: CountedReader::new(reader),
            failures: 0,
        }
    }
}

impl<R: Read> Source for StdSource<R> {
    ghost taken = { λ _. None };

    ghost left = { λ s. R.remaining (reader_of s) };

    ghost faults = { error_count };

    ghost failures = { failed_read_count };

    ghost quiet = { λ _. ⊥ };

    fn read(&mut self, buf: &mut [u8]) -> Got
        // The bytes that are given, and taken from the reader.
        ensures within { IsWithin result (length buf.new) }
        ensures left { Consumes (R.remaining (reader_of self.old)) (R.remaining (reader_of self.new)) (given result buf.new) }
        ensures end { result ≡ Got.End → IsAtEnd (R.remaining (reader_of self.new)) }

        // What goes wrong.
        ensures later { error_count self.old ≤ error_count self.new }
        ensures failed { result ≡ Got.Failed → Rose (error_count self.old) (error_count self.new) }
        ensures failures { failed_read_count self.new ≡ counted (read_failed result) (failed_read_count self.old) }

        // What is tried again.
        ensures tries { error_count self.new ≤ error_count self.old + TRIES }
        ensures hard { result ≢ Got.Failed → hard_error_count self.new ≡ hard_error_count self.old }
        ensures once { hard_error_count self.new ≤ hard_error_count self.old + 1 }
        ensures given_up { result ≡ Got.Failed → Rose (hard_error_count self.old) (hard_error_count self.new) ⊎ RoseBy TRIES (error_count self.old) (error_count self.new) }
    {
        if buf.is_empty() {
            return Got::Bytes(0);
        }
        let answer = got(&self.reader.read(buf));
        self.failures = count(answer.is_failed(), self.failures);
        answer
    }
}
