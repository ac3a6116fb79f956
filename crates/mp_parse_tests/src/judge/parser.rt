use mp_base::{Memory, TEXT_LIMIT};
use mp_lex::lex;
use mp_parse::{ParseError, parse};
use std::alloc::Global;

/// What is said of a list of tokens.
#[derive(Clone, Copy, Debug, PartialEq, Eq)]
pub enum Answer {
    Program,
    /// The code of the first syntax error, and the index of its token.
    Error(u16, usize),
    /// The text has lexical errors, or is too long.
    NoTokens,
}

/// What the parser says of the tokens of a text.
pub fn parser_answer(alloc: Global, text: &str) -> Result<Answer, Memory> {
    let text = text.as_bytes();
    if text.len() > TEXT_LIMIT {
        return Ok(Answer::NoTokens);
    }
    let lexed = lex(alloc, text)?;
    if !lexed.errors.get().is_empty() || lexed.tokens.get().len() > TEXT_LIMIT {
        return Ok(Answer::NoTokens);
    }
    match parse(alloc, &lexed) {
        Ok(_) => Ok(Answer::Program),
        Err(ParseError::Syntax { token, code }) => Ok(Answer::Error(code, token as usize)),
        Err(ParseError::Memory) => Err(Memory),
    }
}
