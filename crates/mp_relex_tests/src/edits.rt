ghost use Rattle.std.specs.Prelude.{◌≡◌};

use crate::same::{is_lexed, is_lexed_as};
use itoa::Buffer;
use mp_base::{Counting, Memory, Steps, TextLine, TextLines, Version};
use mp_desk::Desk;
use mp_script::{BadLine, Command, Lines, Verb, command};
use mp_text::{Edit, TextError};
use std::alloc::Global;

// No edit of the tests brings more lines.
const MOST_LINES: usize = 10_000;

/// The versions, and what was found of them so far.
#[derive(Drop)]
struct Found {
    desk: Desk,
    steps: Steps<Counting>,
    // The bytes that the last edit read.
    read: u64,
    // How many edits were made, how many were refused, and after how many the tokens or errors were not those of `lex`.
    edits: u64,
    refused: u64,
    differ: u64,
    out: Vec<u8>,
}

fn add_number(out: &mut Vec<u8>, front: &[u8], number: u64, back: &[u8]) -> Result<(), Memory> {
    let mut buffer = Buffer::new();
    out.extend_from_slice(front)?;
    out.extend_from_slice(buffer.format(number).as_bytes())?;
    out.extend_from_slice(back)?;
    Ok(())
}

fn insert(found: &mut Found, after: u32, lines: TextLines) -> Result<Version, TextError> {
    if lines.get().len() > MOST_LINES {
        return Err(TextError::Memory);
    }
    found
        .desk
        .edit(Edit::Insert { after, lines }, &mut found.steps)
}

fn replace(
    found: &mut Found,
    first: u32,
    last: u32,
    lines: TextLines,
) -> Result<Version, TextError> {
    if lines.get().len() > MOST_LINES {
        return Err(TextError::Memory);
    }
    let edit = Edit::Replace { first, last, lines };
    found.desk.edit(edit, &mut found.steps)
}

fn substitute(
    found: &mut Found,
    line: u32,
    column: u32,
    count: u32,
    lines: TextLines,
) -> Result<Version, TextError> {
    let mut lines = lines.into_vec();
    if lines.len() != 1 {
        return Err(TextError::Memory);
    }
    let bytes = lines.remove(0);
    let edit = Edit::Sub {
        line,
        column,
        count,
        bytes,
    };
    found.desk.edit(edit, &mut found.steps)
}

// Goes back to a version, whose tokens the new one has.
fn back(found: &mut Found, v: Version) -> Result<Version, TextError> {
    let made = found.desk.back(v, &mut found.steps)?;
    if !is_lexed_as(&found.desk, v) {
        found.differ = found.differ.saturating_add(1);
    }
    Ok(made)
}

// Makes the version that a command asks for.
fn edited(found: &mut Found, asked: Command) -> Option<Result<Version, TextError>> {
    let lines = asked.lines;
    match asked.verb {
        Verb::Insert { after, .. } => Some(insert(found, after, lines)),
        Verb::Delete { first, last } => {
            Some(
                found
                    .desk
                    .edit(Edit::Delete { first, last }, &mut found.steps),
            )
        }
        Verb::Replace { first, last, .. } => Some(replace(found, first, last, lines)),
        Verb::Sub {
            line,
            column,
            count,
        } => Some(substitute(found, line, column, count, lines)),
        Verb::Back { version } => Some(back(found, Version(version))),
        _ => None,
    }
}

// Obeys a command. Any that makes no version tells how many bytes the last edit read.
fn obey(alloc: Global, found: &mut Found, asked: Command) -> Result<(), Memory> {
    let before = found.steps.count();
    match edited(found, asked) {
        None => add_number(&mut found.out, b"read ", found.read, b"\n")?,
        Some(Err(TextError::Memory)) => return Err(Memory),
        Some(Err(_)) => found.refused = found.refused.saturating_add(1),
        Some(Ok(_)) => found.edits = found.edits.saturating_add(1),
    }
    found.read = found.steps.count().saturating_sub(before);
    if !is_lexed(alloc, &found.desk) {
        found.differ = found.differ.saturating_add(1);
    }
    Ok(())
}

// Goes on by a line; what it gives is a command that takes more lines.
fn go_on(
    alloc: Global,
    found: &mut Found,
    open: Option<Command>,
    line: TextLine,
) -> Result<Option<Command>, Memory> {
    let asked = match open {
        Some(mut asked) => {
            if asked.lines.get().len() >= asked.wants as usize {
                return Ok(None);
            }
            asked.take(line)?;
            asked
        }
        None => match command(alloc, &line) {
            Ok(asked) => asked,
            Err(BadLine::Bad) => {
                found.out.extend_from_slice(b"bad line\n")?;
                return Ok(None);
            }
            Err(BadLine::Memory) => return Err(Memory),
        },
    };
    if asked.lines.get().len() < asked.wants as usize {
        return Ok(Some(asked));
    }
    obey(alloc, found, asked)?;
    Ok(None)
}

/// What a script of edits shows.
pub(crate) fn answers(alloc: Global, script: &[u8]) -> Result<Vec<u8>, Memory> {
    let mut lines = Lines::new(alloc);
    let script = lines.feed(script)?.into_vec();
    let mut found = Found {
        desk: Desk::new(alloc)?,
        steps: Steps::new(),
        read: 0,
        edits: 0,
        refused: 0,
        differ: 0,
        out: Vec::new(alloc),
    };
    let mut open = None;
    for line in script {
        open = go_on(alloc, &mut found, open, line)?;
    }
    add_number(&mut found.out, b"edits ", found.edits, b"\n")?;
    add_number(&mut found.out, b"refused ", found.refused, b"\n")?;
    add_number(&mut found.out, b"differ ", found.differ, b"\n")?;
    Ok(found.out)
}
