ghost use Rattle.std.specs.Prelude.{◌≡◌, ◌≢◌, ◌<◌, ◌+◌, ◌^◌, [], IfOk, OnOk, OnErr, Err, length};
ghost use Rattle.mp_edge.specs.Told.{Grows, GrowsPartly};
ghost use Rattle.mp_script.specs.Meaning.{wants_of};
ghost use Rattle.mp_session.specs.Outside.{Failures};
ghost use Rattle.mp_session.specs.Replies.{reply, start};
ghost use Rattle.mp_session.specs.Turns.{is_write_fault, turn_of};

use crate::replies::reply;
use crate::state::State;
use mp_base::{Memory, TextLines};
use mp_edge::{Sink, WriteFailed, write_all};
use mp_script::{Command, Verb};
use mp_text::Texts;
use std::alloc::Global;
use std::marker::Model;
use thiserror::Error;

/// Whether a session goes on after a command.
#[derive(Clone, Copy)]
pub enum Turn {
    /// The session goes on.
    On,
    /// The command was `quit`.
    Quit,
}

/// Why a command was not obeyed to its end.
#[derive(Clone, Copy, Debug, PartialEq, Eq, Error)]
pub enum SessionError {
    /// A write failed; a front of the reply was written.
    #[error("a write failed")]
    WriteFault,
    /// Memory was wanting.
    #[error("out of memory")]
    Memory,
}

impl From<WriteFailed> for SessionError {
    ghost use Rattle.std.specs.Prelude.{◌≡◌};
    ghost use Rattle.mp_session.specs.declared.session.SessionError.TheVariants as error;

    ghost from_gives = { λ _ e. e ≡ error.WriteFault };

    fn from(_: WriteFailed) -> SessionError {
        SessionError::WriteFault
    }
}

impl From<Memory> for SessionError {
    ghost use Rattle.std.specs.Prelude.{◌≡◌};
    ghost use Rattle.mp_session.specs.declared.session.SessionError.TheVariants as error;

    ghost from_gives = { λ _ e. e ≡ error.Memory };

    fn from(_: Memory) -> SessionError {
        SessionError::Memory
    }
}

/// The versions of a text, and the commands on them.
#[derive(Drop)]
pub struct Session {
    alloc: Global,
    state: State,
    obeyed: u64,
}

impl Model for Session {
    ghost use Rattle.mp_session.specs.Replies.{View};

    ghost Value = { View };

    ghost view = { λ session. record { state = session.state; obeyed = session.obeyed } };
}

// Whether a session goes on after this command.
fn turn_of(verb: &Verb) -> Turn
    ensures { result ≡ turn_of verb.now }
{
    match verb {
        Verb::Quit => Turn::Quit,
        _ => Turn::On,
    }
}

impl Session {
    /// A new session, which obeys its commands without threads: one version, which is empty, and no input.
    #[tactic(auto, unfolding(crate::specs::Replies::start))]
    pub fn serial(alloc: Global) -> Result<Session, Memory>
        ensures { IfOk result (λ session. session ≡ record { state = start; obeyed = 0 }) }
    {
        Ok(Session {
            alloc,
            state: State {
                versions: Texts::new(alloc)?,
                input: TextLines::new(alloc),
            },
            obeyed: 0,
        })
    }

    /// Obeys a command that has all its lines, and writes the reply. A reply of no bytes makes no write. After an
    /// error the session may only be finished.
    pub fn obey<K: Sink>(&mut self, command: Command, sink: &mut K) -> Result<Turn, SessionError>
        requires verb { command.wants ≡ wants_of command.verb }
        requires whole { length command.lines ≡ command.wants }
        requires few { command.wants < 1000000000 }
        requires count { self.old.obeyed < 2 ^ 32 }

        // The reply, and the state after it.
        ensures state { OnOk result (self.new.state ≡ (reply self.old.state command).state) }
        ensures written { OnOk result (Grows (K.written sink.old) (K.written sink.new) (reply self.old.state command).bytes) }
        ensures partly { OnErr result (GrowsPartly (K.written sink.old) (K.written sink.new) (reply self.old.state command).bytes) }
        ensures empty { (reply self.old.state command).bytes ≡ [] → (sink.new ≡ sink.old) × (result ≢ Err SessionError.WriteFault) }
        ensures turn { IfOk result (λ turn. turn ≡ turn_of command.verb) }
        ensures count { OnOk result (self.new.obeyed ≡ self.old.obeyed + 1) }

        // What went wrong.
        ensures sink { Failures (is_write_fault result) (K.faults sink.old) (K.faults sink.new) (K.failures sink.old) (K.failures sink.new) (K.quiet sink.old) (K.quiet sink.new) }
    {
        let turn = turn_of(&command.verb);
        self.obeyed += 1;
        let bytes = reply(self.alloc, &mut self.state, command)?;
        write_all(sink, bytes.get())?;
        Ok(turn)
    }

    /// Ends the session.
    pub fn finish(self) {}
}
