ghost use Rattle.std.specs.Prelude.{◌≡◌, ◌≤◌, ◌+◌, IfErr, false};
ghost use Rattle.std.specs.Io.{WritesAtMost};
ghost use Rattle.std.specs.Io.KnownBytes.{WriteAppends};
ghost use Rattle.mp_edge.specs.Causes.{Rose, RoseBy, counted};
ghost use Rattle.mp_edge.specs.Answers.{put_of, write_failed};
ghost use Rattle.mp_edge.specs.Interrupts.{is_hard, is_hard_write};

use crate::counting::count;
use crate::sink::Put;
use crate::tries::{TRIES, is_interrupted};
use std::io::{self, Write};

// What std's answer to a write of a piece that is not empty means.
pub(crate) fn put(answer: &io::Result<usize>) -> Put
    ensures { result ≡ put_of answer.now }
{
    match answer {
        Ok(0) => Put::Failed,
        Ok(count) => Put::Took(*count),
        Err(_) => Put::Failed,
    }
}

// Whether a write of a piece that is not empty ended so that it is not tried again.
fn is_hard_put(answer: &io::Result<usize>) -> bool
    ensures { result ≡ is_hard_write answer.now }
{
    match answer {
        Ok(count) => *count == 0,
        Err(error) => !is_interrupted(error),
    }
}

// A writer of std with a count of its failed writes, and of those that no signal interrupted. Nothing but `write_once`
// touches the writer or the counts.
#[derive(Drop)]
pub(crate) struct CountedWriter<W: Write> {
    writer: W,
    faults: u64,
    hard_faults: u64,
}

impl<W: Write> CountedWriter<W> {
    pub(crate) fn new(writer: W) -> CountedWriter<W>
        ensures writer { result.writer ≡ writer }
        ensures faults { result.faults ≡ 0 }
        ensures hard { result.hard_faults ≡ 0 }
    {
        CountedWriter {
            writer,
            faults: 0,
            hard_faults: 0,
        }
    }

    // One write of a piece that is not empty.
    fn write_once(&mut self, bytes: &[u8]) -> io::Result<usize>
        ensures bound { WritesAtMost result bytes.now }
        ensures bytes { WriteAppends (W.contents self.old.writer) (W.contents self.new.writer) result bytes.now }
        ensures faults { self.new.faults ≡ counted (write_failed (put_of result)) self.old.faults }
        ensures hard { self.new.hard_faults ≡ counted (is_hard_write result) self.old.hard_faults }
    {
        let answer = self.writer.write(bytes);
        self.faults = count(put(&answer).is_failed(), self.faults);
        self.hard_faults = count(is_hard_put(&answer), self.hard_faults);
        answer
    }

    // Writes a piece that is not empty, again where a write is interrupted and only there, in at most `TRIES` writes.
    pub(crate) fn write(&mut self, bytes: &[u8]) -> io::Result<usize>
        ensures bound { WritesAtMost result bytes.now }
        ensures bytes { WriteAppends (W.contents self.old.writer) (W.contents self.new.writer) result bytes.now }
        ensures later { self.old.faults ≤ self.new.faults }
        ensures failed { put_of result ≡ Put.Failed → Rose self.old.faults self.new.faults }
        ensures tries { self.new.faults ≤ self.old.faults + TRIES }
        ensures hard { self.new.hard_faults ≡ counted (is_hard_write result) self.old.hard_faults }
        ensures retried { IfErr result (λ e. is_hard e ≡ false → RoseBy TRIES self.old.faults self.new.faults) }
    {
        'tries: for _ in 1..TRIES {
            match self.write_once(bytes) {
                Ok(count) => return Ok(count),
                Err(error) => {
                    if !is_interrupted(&error) {
                        return Err(error);
                    }
                }
            }
        }
        self.write_once(bytes)
    }
}
