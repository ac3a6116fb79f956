ghost use Rattle.std.specs.Prelude.{◌≡◌, ◌≤◌, ◌<◌, ◌+◌, ◌^◌, IfOk, OnOk, OnErr, length};
ghost use Rattle.mp_edge.specs.Told.{Grows, GrowsPartly};
ghost use Rattle.mp_session.specs.Lines.{after, from, next_of, step};
ghost use Rattle.mp_session.specs.Outside.{Failures};
ghost use Rattle.mp_session.specs.Turns.{is_write_fault};
ghost use Rattle.mp_cli.specs.Talk.{IsNext, IsOpen, goes, standing};

use mp_base::{Memory, TextLine, TextLines};
use mp_edge::{Sink, write_all};
use mp_script::{BadLine, Command, command};
use mp_session::{Session, SessionError, Turn};
use std::alloc::Global;
use std::mem;

// The command that a line begins, or to which it is given; None where the line is a bad command.
#[tactic(auto, unfolding(mp_session::specs::Lines::next_of))]
fn next_command(
    alloc: Global,
    waiting: Option<Command>,
    line: TextLine,
) -> Result<Option<Command>, Memory>
    requires { IsOpen waiting }
    ensures next { IfOk result (λ next. next ≡ next_of waiting line) }
    ensures fits { IfOk result IsNext }
{
    match waiting {
        Some(mut command) => {
            command.take(line)?;
            Ok(Some(command))
        }
        None => match command(alloc, &line) {
            Ok(begun) => Ok(Some(begun)),
            Err(BadLine::Bad) => Ok(None),
            Err(BadLine::Memory) => Err(Memory),
        },
    }
}

/// Takes one line of a script, obeys the command that has all its lines with it, and writes the reply.
pub(crate) fn take_line<K: Sink>(
    alloc: Global,
    session: &mut Session,
    waiting: &mut Option<Command>,
    line: TextLine,
    sink: &mut K,
) -> Result<Turn, SessionError>
    requires open { IsOpen waiting.old }
    requires count { session.old.obeyed < 2 ^ 32 }

    // What the line leads to.
    ensures open { OnOk result (IsOpen waiting.new) }
    ensures now { IfOk result (λ turn. (step (standing session.old.state waiting.old) line).now ≡ goes turn (standing session.new.state waiting.new)) }
    ensures written { OnOk result (Grows (K.written sink.old) (K.written sink.new) (step (standing session.old.state waiting.old) line).bytes) }
    ensures partly { OnErr result (GrowsPartly (K.written sink.old) (K.written sink.new) (step (standing session.old.state waiting.old) line).bytes) }
    ensures count { OnOk result (session.new.obeyed ≤ session.old.obeyed + 1) }

    // What went wrong.
    ensures sink { Failures (is_write_fault result) (K.faults sink.old) (K.faults sink.new)
        (K.failures sink.old) (K.failures sink.new) (K.quiet sink.old) (K.quiet sink.new) }
{
    let before = mem::replace(waiting, None);
    let Some(next) = next_command(alloc, before, line)? else {
        write_all(sink, b"? 20 bad command\n")?;
        return Ok(Turn::On);
    };
    if next.lines.get().len() < next.wants as usize {
        *waiting = Some(next);
        return Ok(Turn::On);
    }
    session.obey(next, sink)
}

/// Takes lines of a script one after another, up to the first `quit`.
pub(crate) fn take_lines<K: Sink>(
    alloc: Global,
    session: &mut Session,
    waiting: &mut Option<Command>,
    lines: TextLines,
    sink: &mut K,
) -> Result<Turn, SessionError>
    requires open { IsOpen waiting.old }
    requires count { session.old.obeyed + length lines ≤ 2 ^ 32 }

    // What the lines lead to.
    ensures open { OnOk result (IsOpen waiting.new) }
    ensures now { IfOk result (λ turn. (after (from (standing session.old.state waiting.old)) lines).now ≡ goes turn (standing session.new.state waiting.new)) }
    ensures written { OnOk result (Grows (K.written sink.old) (K.written sink.new) (after (from (standing session.old.state waiting.old)) lines).bytes) }
    ensures partly { OnErr result (GrowsPartly (K.written sink.old) (K.written sink.new) (after (from (standing session.old.state waiting.old)) lines).bytes) }
    ensures count { OnOk result (session.new.obeyed ≤ session.old.obeyed + length lines) }

    // What went wrong.
    ensures sink { Failures (is_write_fault result) (K.faults sink.old) (K.faults sink.new)
        (K.failures sink.old) (K.failures sink.new) (K.quiet sink.old) (K.quiet sink.new) }
{
    for line in lines.into_vec() {
        if let Turn::Quit = take_line(alloc, session, waiting, line, sink)? {
            return Ok(Turn::Quit);
        }
    }
    Ok(Turn::On)
}
