ghost use Rattle.std.specs.Prelude.{◌≡◌, ◌<◌, ◌^◌, OnOk, OnErr, Some};
ghost use Rattle.mp_edge.specs.Told.{Grows, GrowsPartly};
ghost use Rattle.mp_session.specs.Lines.{closing_of};
ghost use Rattle.mp_session.specs.Outside.{Failures};
ghost use Rattle.mp_session.specs.Replies.{start};
ghost use Rattle.mp_session.specs.Transcript.{script_ended};
ghost use Rattle.mp_session.specs.Turns.{is_write_fault};
ghost use Rattle.mp_cli.specs.Talk.{IsOpen, last_bytes, standing};
ghost use Rattle.mp_cli.specs.Top.{Met, read_failed_at, write_failed_at};

use crate::forms::Form;
use crate::reading::BUFFER_SIZE;
use crate::status::Status;
use crate::talk::{take_line, take_lines};
use mp_base::SCRIPT_LIMIT;
use mp_edge::{Got, Sink, Source, write_all};
use mp_script::{Command, Lines};
use mp_session::{Session, SessionError, Turn};
use std::alloc::Global;

// What is written at the end for a command that still waits.
fn close<K: Sink>(waiting: &Option<Command>, sink: &mut K) -> Result<(), SessionError>
    ensures ok { OnOk result (Grows (K.written sink.old) (K.written sink.new) (closing_of script_ended waiting.now)) }
    ensures partly { OnErr result (GrowsPartly (K.written sink.old) (K.written sink.new) (closing_of script_ended waiting.now)) }
    ensures sink { Failures (is_write_fault result) (K.faults sink.old) (K.faults sink.new)
        (K.failures sink.old) (K.failures sink.new) (K.quiet sink.old) (K.quiet sink.new) }
{
    if waiting.is_some() {
        write_all(sink, b"? 25 script ended\n")?;
    }
    Ok(())
}

// The end of a script: the last line where it is not ended, and the command that still waits.
fn finish<K: Sink>(
    alloc: Global,
    session: &mut Session,
    waiting: &mut Option<Command>,
    lines: Lines,
    sink: &mut K,
) -> Result<(), SessionError>
    requires open { IsOpen waiting.old }
    requires count { session.old.obeyed < 2 ^ 32 }
    ensures ok { OnOk result (Grows (K.written sink.old) (K.written sink.new) (last_bytes (standing session.old.state waiting.old) lines)) }
    ensures partly { OnErr result (GrowsPartly (K.written sink.old) (K.written sink.new) (last_bytes (standing session.old.state waiting.old) lines)) }
    ensures sink { Failures (is_write_fault result) (K.faults sink.old) (K.faults sink.new)
        (K.failures sink.old) (K.failures sink.new) (K.quiet sink.old) (K.quiet sink.new) }
{
    let Some(line) = lines.finish() else {
        return close(waiting, sink);
    };
    match take_line(alloc, session, waiting, line, sink)? {
        Turn::On => close(waiting, sink),
        Turn::Quit => Ok(()),
    }
}

// Obeys a script in a new session, up to its end, its limit or its first `quit`.
fn obey_script<S: Source, K: Sink>(
    alloc: Global,
    session: &mut Session,
    source: &mut S,
    sink: &mut K,
) -> Status
    requires { session.old ≡ record { state = start; obeyed = 0 } }
    ensures met { Met (Some Form.Serial) result (S.taken source.old) (S.taken source.new) (S.left source.old) (S.left source.new)
        (K.written sink.old) (K.written sink.new) }
    ensures source { Failures (read_failed_at result) (S.faults source.old) (S.faults source.new)
        (S.failures source.old) (S.failures source.new) (S.quiet source.old) (S.quiet source.new) }
    ensures sink { Failures (write_failed_at result) (K.faults sink.old) (K.faults sink.new)
        (K.failures sink.old) (K.failures sink.new) (K.quiet sink.old) (K.quiet sink.new) }
{
    let mut waiting: Option<Command> = None;
    let mut lines = Lines::new(alloc);
    let mut buffer = [0u8; BUFFER_SIZE];
    let mut taken = 0;
    'reads: while taken < SCRIPT_LIMIT {
        let room = (SCRIPT_LIMIT - taken).min(BUFFER_SIZE);
        match source.read(&mut buffer[..room]) {
            Got::Failed => return Status::ReadFault,
            Got::End => match finish(alloc, session, &mut waiting, lines, sink) {
                Ok(()) => return Status::Done,
                Err(SessionError::WriteFault) => return Status::WriteFault,
                Err(SessionError::Memory) => return Status::Memory,
            },
            Got::Bytes(count) => {
                taken += count;
                let whole = match lines.feed(&buffer[..count]) {
                    Ok(whole) => whole,
                    Err(_) => return Status::Memory,
                };
                match take_lines(alloc, session, &mut waiting, whole, sink) {
                    Ok(Turn::On) => {}
                    Ok(Turn::Quit) => return Status::Done,
                    Err(SessionError::WriteFault) => return Status::WriteFault,
                    Err(SessionError::Memory) => return Status::Memory,
                }
            }
        }
    }
    Status::ScriptLimit
}

/// Obeys the script that the source gives, in a session without threads.
pub(crate) fn serial<S: Source, K: Sink>(alloc: Global, source: &mut S, sink: &mut K) -> Status
    ensures met { Met (Some Form.Serial) result (S.taken source.old) (S.taken source.new) (S.left source.old) (S.left source.new)
        (K.written sink.old) (K.written sink.new) }
    ensures source { Failures (read_failed_at result) (S.faults source.old) (S.faults source.new)
        (S.failures source.old) (S.failures source.new) (S.quiet source.old) (S.quiet source.new) }
    ensures sink { Failures (write_failed_at result) (K.faults sink.old) (K.faults sink.new)
        (K.failures sink.old) (K.failures sink.new) (K.quiet sink.old) (K.quiet sink.new) }
{
    match Session::serial(alloc) {
        Ok(mut session) => obey_script(alloc, &mut session, source, sink),
        Err(_) => Status::Memory,
    }
}
