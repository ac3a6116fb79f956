ghost use Rattle.std.specs.Prelude.{◌≡◌, ◌≢◌, ◌++◌, ◌<◌, ◌≤◌, ◌^◌, IfOk, MatchResult, decimal, length};
ghost use Rattle.mp_base.specs.Text.{bytes_of, lines_of};
ghost use Rattle.mp_script.specs.Meaning.{wants_of};
ghost use Rattle.mp_session.specs.Replies.{back_reply, edit_reply, input_reply, list_reply, list_transcript, meant_version};
ghost use Rattle.mp_session.specs.Replies.{one_line, refusal_line, reply, text_reply, version_line};
ghost use Rattle.mp_text.specs.Edits.{new_lines};

use crate::listing::text_listing;
use crate::state::State;
use crate::texts::limit_refusal;
use itoa::Buffer;
use mp_base::{Bytes, Memory, SCRIPT_LIMIT, TextLines, Version};
use mp_script::{Command, Verb};
use mp_text::{Edit, TextError};
use std::alloc::Global;

// A number between two pieces of text.
fn around(alloc: Global, front: &[u8], number: u64, back: &[u8]) -> Result<Bytes, Memory>
    ensures { IfOk result (λ bytes. bytes ≡ front.now ++ (decimal number ++ back.now)) }
{
    let mut buffer = Buffer::new();
    let mut out = Vec::from_slice(alloc, front)?;
    out.extend_from_slice(buffer.format(number).as_bytes())?;
    out.extend_from_slice(back)?;
    Ok(Bytes::from_vec(out))
}

// The line of a refusal; `version` is the one that was named.
fn refusal_line(alloc: Global, error: TextError, version: u64) -> Result<Bytes, Memory>
    ensures { IfOk result (λ bytes. bytes ≡ refusal_line error version) }
{
    match error {
        TextError::NoVersion => around(alloc, b"? 1 no version ", version, b"\n"),
        TextError::Range { last } => {
            around(alloc, b"? 2 out of range, last is ", u64::from(last), b"\n")
        }
        TextError::TooLong { bytes } => around(alloc, b"? 3 text too long, ", bytes, b" bytes\n"),
        TextError::LineLong { line } => {
            around(alloc, b"? 4 line ", u64::from(line), b" too long\n")
        }
        TextError::VersionsFull => Bytes::of(alloc, b"? 5 versions full\n"),
        TextError::Memory => Ok(Bytes::from_vec(Vec::new(alloc))),
    }
}

// The line of a new version, or of its refusal.
fn version_bytes(
    alloc: Global,
    answer: Result<Version, TextError>,
    named: u64,
) -> Result<Bytes, Memory>
    ensures { IfOk result (λ bytes. MatchResult answer (λ version. bytes ≡ version_line version.0) (λ error. (error ≢ TextError.Memory) × (bytes ≡ refusal_line error named))) }
{
    match answer {
        Ok(version) => around(alloc, b"version ", u64::from(version.0), b"\n"),
        Err(TextError::Memory) => Err(Memory),
        Err(error) => refusal_line(alloc, error, named),
    }
}

// An edit of the current version.
fn edit(alloc: Global, state: &mut State, edit: Edit) -> Result<Bytes, Memory>
    requires { length (new_lines edit) < 2 ^ 31 }
    ensures { IfOk result (λ bytes. edit_reply state.old edit ≡ record { state = state.new; bytes = bytes }) }
{
    let current = state.versions.current();
    let answer = state.versions.apply(current, edit);
    version_bytes(alloc, answer, u64::from(current.0))
}

// Going back to a version.
fn back(alloc: Global, state: &mut State, version: u32) -> Result<Bytes, Memory>
    ensures { IfOk result (λ bytes. back_reply state.old version ≡ record { state = state.new; bytes = bytes }) }
{
    let answer = state.versions.back(Version(version));
    version_bytes(alloc, answer, u64::from(version))
}

// A version with its number and the number of its lines.
fn text(alloc: Global, state: &State, version: u32) -> Result<Bytes, Memory>
    ensures { IfOk result (λ bytes. text_reply state.now version ≡ record { state = state.now; bytes = bytes }) }
{
    let bytes = match state.versions.bytes(Version(version)) {
        Ok(bytes) => bytes,
        Err(TextError::Memory) => return Err(Memory),
        Err(error) => return refusal_line(alloc, error, u64::from(version)),
    };
    let count = state.versions.line_count(Version(version));
    let head = around(alloc, b"version ", u64::from(version), b", ")?;
    let lines = around(alloc, b"", u64::from(count), b" lines\n")?;
    let mut out = Vec::from_slice(alloc, head.get())?;
    out.extend_from_slice(lines.get())?;
    out.extend_from_slice(bytes.get())?;
    Ok(Bytes::from_vec(out))
}

// The listing of a version.
fn list(alloc: Global, state: &State, version: u32) -> Result<Bytes, Memory>
    ensures { IfOk result (λ bytes. list_reply state.now version ≡ record { state = state.now; bytes = bytes }) }
{
    match state.versions.bytes(Version(version)) {
        Ok(bytes) => text_listing(alloc, bytes.get()),
        Err(TextError::Memory) => Err(Memory),
        Err(error) => refusal_line(alloc, error, u64::from(version)),
    }
}

// The input of later runs.
fn input(alloc: Global, state: &mut State, lines: TextLines) -> Result<Bytes, Memory>
    ensures { IfOk result (λ bytes. input_reply state.old lines ≡ record { state = state.new; bytes = bytes }) }
{
    let bytes = around(alloc, b"input ", lines.get().len() as u64, b" lines\n")?;
    state.input = lines;
    Ok(bytes)
}

// An edit within a line of the current version: the one line that it takes has the new bytes.
fn sub(
    alloc: Global,
    state: &mut State,
    line: u32,
    column: u32,
    count: u32,
    lines: TextLines,
) -> Result<Bytes, Memory>
    requires { length lines ≡ 1 }
    ensures { IfOk result (λ bytes. edit_reply state.old (Edit.Sub line column count (one_line lines)) ≡ record { state = state.new; bytes = bytes }) }
{
    let mut lines = lines.into_vec();
    let bytes = lines.remove(0);
    edit(
        alloc,
        state,
        Edit::Sub {
            line,
            column,
            count,
            bytes,
        },
    )
}

// The version that a command means: the one it names, or else the current one.
fn meant_version(state: &State, named: Option<u32>) -> u32
    ensures { result ≡ meant_version named state.now }
{
    match named {
        Some(version) => version,
        None => state.versions.current().0,
    }
}

/// The reply to a command that has all its lines. After want of memory the state may have changed.
#[tactic(auto, unfolding(crate::specs::Replies::reply))]
pub(crate) fn reply(alloc: Global, state: &mut State, command: Command) -> Result<Bytes, Memory>
    requires verb { command.wants ≡ wants_of command.verb }
    requires whole { length command.lines ≡ command.wants }
    requires few { command.wants < 1000000000 }
    ensures { IfOk result (λ bytes. reply state.old command ≡ record { state = state.new; bytes = bytes }) }
{
    let lines = command.lines;
    match command.verb {
        Verb::Nothing => Ok(Bytes::from_vec(Vec::new(alloc))),
        Verb::Insert { after, .. } => edit(alloc, state, Edit::Insert { after, lines }),
        Verb::Delete { first, last } => edit(alloc, state, Edit::Delete { first, last }),
        Verb::Replace { first, last, .. } => {
            edit(alloc, state, Edit::Replace { first, last, lines })
        }
        Verb::Sub {
            line,
            column,
            count,
        } => sub(alloc, state, line, column, count, lines),
        Verb::Back { version } => back(alloc, state, version),
        Verb::Text { version } => {
            let version = meant_version(state, version);
            text(alloc, state, version)
        }
        Verb::List { version } => {
            let version = meant_version(state, version);
            list(alloc, state, version)
        }
        Verb::Input { .. } => input(alloc, state, lines),
        Verb::Ready
        | Verb::Break { .. }
        | Verb::Clear { .. }
        | Verb::Run { .. }
        | Verb::Go { .. }
        | Verb::Step { .. }
        | Verb::Show { .. }
        | Verb::Chain
        | Verb::Kill => Bytes::of(alloc, b"? 90 not built\n"),
        Verb::Quit => Ok(Bytes::from_vec(Vec::new(alloc))),
    }
}

/// What is written where the listing of a text, whose last line is ended, is asked for outside a session: its
/// listing, or the line of the refusal where it breaks a limit.
pub fn list_transcript(alloc: Global, text: &[u8]) -> Result<Bytes, Memory>
    requires few { length text.now ≤ SCRIPT_LIMIT }
    requires ended { text.now ≡ bytes_of (lines_of text.now) }
    ensures { IfOk result (λ bytes. bytes ≡ list_transcript (lines_of text.now)) }
{
    match limit_refusal(text) {
        None => text_listing(alloc, text),
        Some(error) => refusal_line(alloc, error, 0),
    }
}
