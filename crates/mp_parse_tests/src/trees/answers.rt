use crate::trees::blocks::tree;
use crate::trees::written::{Outcome, Written};
use mp_base::{Memory, TEXT_LIMIT};
use mp_lex::lex;
use mp_parse::{ParseError, parse};
use std::alloc::Global;

/// The line behind each text.
const BEHIND: &[u8] = b"=====";

// `error 201 at token 5`
fn error(out: &mut Written, code: u16, token: u32) -> Outcome {
    out.word("error")?;
    out.count(u64::from(code))?;
    out.word("at token")?;
    out.count(u64::from(token))?;
    out.add(b"\n")
}

// The text's tree, or what is wrong with it.
fn answer(alloc: Global, out: &mut Written, text: &[u8]) -> Result<(), Memory> {
    if text.len() > TEXT_LIMIT {
        out.add(b"too long\n")?;
        return Ok(());
    }
    let lexed = lex(alloc, text)?;
    if !lexed.errors.get().is_empty() || lexed.tokens.get().len() > TEXT_LIMIT {
        out.add(b"lexical error\n")?;
        return Ok(());
    }
    match parse(alloc, &lexed) {
        Ok(found) => tree(out, &found, 0)?,
        Err(ParseError::Syntax { token, code }) => error(out, code, token)?,
        Err(ParseError::Memory) => return Err(Memory),
    }
    Ok(())
}

/// Each text of the input, its answer, and the line that ends it there too.
pub fn answers(alloc: Global, input: &[u8]) -> Result<Written, Memory> {
    let mut out = Written::new(alloc);
    let mut text = Vec::new(alloc);
    for line in input.split(|byte| *byte == b'\n') {
        if line == BEHIND {
            out.add(text.as_slice())?;
            answer(alloc, &mut out, text.as_slice())?;
            out.add(b"=====\n")?;
            text = Vec::new(alloc);
        } else {
            text.extend_from_slice(line)?;
            text.push(b'\n')?;
        }
    }
    Ok(out)
}
