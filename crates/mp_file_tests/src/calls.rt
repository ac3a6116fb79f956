use crate::run::{Answer, Run};
use crate::texts::{bytes_of, shown};
use mp_base::{Bytes, Memory};
use mp_files::{FileEnd, field_bool, field_chars, field_int};
use std::alloc::{AllocError, Global};

// The answer of a call on a file.
fn answer(alloc: Global, given: Result<Answer, FileEnd>) -> Result<String, AllocError> {
    match given {
        Ok(Answer::Done) => String::from_str(alloc, "done"),
        Ok(Answer::Truth(true)) => String::from_str(alloc, "true"),
        Ok(Answer::Truth(false)) => String::from_str(alloc, "false"),
        Ok(Answer::Number(n)) => format!(in alloc; "{n}"),
        Ok(Answer::Shown(None)) => String::from_str(alloc, "nothing"),
        Ok(Answer::Shown(Some(byte))) => format!(in alloc; "character {byte}"),
        Ok(Answer::Text(bytes)) => quoted(alloc, bytes.as_slice()),
        Ok(Answer::NoFile) => String::from_str(alloc, "no such file"),
        Ok(Answer::NoCall) => String::from_str(alloc, "no such call"),
        Err(e) => format!(in alloc; "{e}"),
    }
}

// Bytes that are ASCII in quotes.
fn quoted(alloc: Global, bytes: &[u8]) -> Result<String, AllocError> {
    match str::from_utf8(bytes) {
        Ok(text) => format!(in alloc; "\"{text}\""),
        Err(_) => String::from_str(alloc, "no text"),
    }
}

fn field_answer(alloc: Global, given: Result<Bytes, FileEnd>) -> Result<String, AllocError> {
    match given {
        Ok(bytes) => {
            let bytes = bytes.get();
            if bytes.len() > 100 {
                return format!(in alloc; "{} bytes", bytes.len());
            }
            let text = shown(alloc, bytes)?;
            unquoted(alloc, text.as_slice())
        }
        Err(e) => format!(in alloc; "{e}"),
    }
}

fn unquoted(alloc: Global, bytes: &[u8]) -> Result<String, AllocError> {
    match str::from_utf8(bytes) {
        Ok(text) => String::from_str(alloc, text),
        Err(_) => String::from_str(alloc, "no text"),
    }
}

// A field: its kind, its width and its value.
fn field(
    alloc: Global,
    kind: &str,
    width: i64,
    value: &str,
) -> Result<Result<Bytes, FileEnd>, AllocError> {
    match kind {
        "int" => Ok(field_int(alloc, value.parse::<i64>().unwrap_or(0), width)),
        "bool" => Ok(field_bool(alloc, value == "true", width)),
        _ => {
            let bytes = bytes_of(alloc, value)?;
            Ok(field_chars(alloc, bytes.as_slice(), width))
        }
    }
}

// A call on a file, by its name and what stands behind it.
fn call(alloc: Global, run: &mut Run, name: &str, rest: &str) -> Result<String, AllocError> {
    let (number, text) = match rest.split_once(' ') {
        Some(parts) => parts,
        None => (rest, ""),
    };
    let number = number.parse::<u64>().unwrap_or(0);
    if name == "many" {
        let bytes = vec![in alloc; b'x'; text.parse::<usize>().unwrap_or(0)]?;
        let given = run.call(alloc, "write", number, bytes.as_slice());
        return answer(alloc, given);
    }
    let text = bytes_of(alloc, text)?;
    let given = run.call(alloc, name, number, text.as_slice());
    answer(alloc, given)
}

// What a call without a file answers, where it is one.
fn other(alloc: Global, run: &mut Run, name: &str, rest: &str) -> Result<Option<String>, Memory> {
    match name {
        "run" => {
            let input = bytes_of(alloc, rest)?;
            *run = Run::new(alloc, input.as_slice())?;
            Ok(Some(String::from_str(alloc, "done")?))
        }
        "make" => {
            let number = run.make(alloc)?;
            Ok(Some(format!(in alloc; "{number}")?))
        }
        "output" => {
            let text = shown(alloc, run.output())?;
            Ok(Some(unquoted(alloc, text.as_slice())?))
        }
        "size" => {
            let size = run.output().len();
            Ok(Some(format!(in alloc; "{size}")?))
        }
        "int" | "bool" | "chars" => {
            let (width, value) = match rest.split_once(' ') {
                Some(parts) => parts,
                None => (rest, ""),
            };
            let given = field(alloc, name, width.parse::<i64>().unwrap_or(0), value)?;
            Ok(Some(field_answer(alloc, given)?))
        }
        _ => Ok(None),
    }
}

/// Each line of the table with its answer.
pub fn answers(alloc: Global, table: &str) -> Result<Vec<u8>, Memory> {
    let mut out = Vec::new(alloc);
    let mut run = Run::new(alloc, b"")?;
    for line in table.lines() {
        out.extend_from_slice(line.as_bytes())?;
        if !line.is_empty() && !line.starts_with('#') {
            let (name, rest) = match line.split_once(' ') {
                Some(parts) => parts,
                None => (line, ""),
            };
            let text = match other(alloc, &mut run, name, rest)? {
                Some(text) => text,
                None => call(alloc, &mut run, name, rest)?,
            };
            out.extend_from_slice(b" = ")?;
            out.extend_from_slice(text.as_bytes())?;
        }
        out.push(b'\n')?;
    }
    Ok(out)
}
