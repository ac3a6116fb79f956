ghost use Rattle.std.specs.Prelude.{◌≡◌, ◌≤◌, ◌+◌, IfErr, OnErr, false, is_err};
ghost use Rattle.std.specs.Io.{ReadsAtMost};
ghost use Rattle.std.specs.Io.KnownBytes.{ReadConsumes};
ghost use Rattle.mp_edge.specs.Causes.{Rose, RoseBy, counted};
ghost use Rattle.mp_edge.specs.Answers.{failed_by};
ghost use Rattle.mp_edge.specs.Interrupts.{is_hard};

use crate::counting::count;
use crate::tries::{TRIES, is_hard_answer, is_interrupted};
use std::io::{self, Read};

// A reader of std with a count of its errors, and of those that were no interruptions. Nothing but `read_once` touches
// the reader or the counts.
#[derive(Drop)]
pub(crate) struct CountedReader<R: Read> {
    reader: R,
    errors: u64,
    hard_errors: u64,
}

impl<R: Read> CountedReader<R> {
    pub(crate) fn new(reader: R) -> CountedReader<R>
        ensures reader { result.reader ≡ reader }
        ensures errors { result.errors ≡ 0 }
        ensures hard { result.hard_errors ≡ 0 }
    {
        CountedReader {
            reader,
            errors: 0,
            hard_errors: 0,
        }
    }

    // One read.
    fn read_once(&mut self, buf: &mut [u8]) -> io::Result<usize>
        ensures bound { ReadsAtMost result buf.new }
        ensures bytes { ReadConsumes (R.remaining self.old.reader) (R.remaining self.new.reader) result buf.new }
        ensures errors { self.new.errors ≡ counted (is_err result) self.old.errors }
        ensures hard { self.new.hard_errors ≡ counted (failed_by is_hard result) self.old.hard_errors }
    {
        let answer = self.reader.read(buf);
        self.errors = count(answer.is_err(), self.errors);
        self.hard_errors = count(is_hard_answer(&answer), self.hard_errors);
        answer
    }

    // Reads, again where a read is interrupted and only there, in at most `TRIES` reads.
    pub(crate) fn read(&mut self, buf: &mut [u8]) -> io::Result<usize>
        ensures bound { ReadsAtMost result buf.new }
        ensures bytes { ReadConsumes (R.remaining self.old.reader) (R.remaining self.new.reader) result buf.new }
        ensures later { self.old.errors ≤ self.new.errors }
        ensures err { OnErr result (Rose self.old.errors self.new.errors) }
        ensures tries { self.new.errors ≤ self.old.errors + TRIES }
        ensures hard { self.new.hard_errors ≡ counted (failed_by is_hard result) self.old.hard_errors }
        ensures retried { IfErr result (λ e. is_hard e ≡ false → RoseBy TRIES self.old.errors self.new.errors) }
    {
        'tries: for _ in 1..TRIES {
            match self.read_once(buf) {
                Ok(count) => return Ok(count),
                Err(error) => {
                    if !is_interrupted(&error) {
                        return Err(error);
                    }
                }
            }
        }
        self.read_once(buf)
    }
}
