mod limits;
mod nests;

use limits::Row;
use mp_base::{Memory, TEXT_LIMIT};
use mp_lex::lex;
use mp_parse::{ParseError, parse};
use nests::Nest;
use std::alloc::Global;
use std::process::Abort;
use std::test::Fail;

/// What the parser answers to a text.
#[derive(Clone, Copy, Debug, PartialEq, Eq)]
pub(crate) enum Answer {
    Tree,
    /// The code of the error, and the token's index.
    Refused(u16, u32),
    TooLong,
    LexicalError,
}

fn answer_to(alloc: Global, text: &[u8]) -> Result<Answer, Memory> {
    if text.len() > TEXT_LIMIT {
        return Ok(Answer::TooLong);
    }
    let lexed = lex(alloc, text)?;
    if !lexed.errors.get().is_empty() || lexed.tokens.get().len() > TEXT_LIMIT {
        return Ok(Answer::LexicalError);
    }
    match parse(alloc, &lexed) {
        Ok(_) => Ok(Answer::Tree),
        Err(ParseError::Syntax { token, code }) => Ok(Answer::Refused(code, token)),
        Err(ParseError::Memory) => Err(Memory),
    }
}

// Each piece so many times, one behind the other.
fn text_of(alloc: Global, pieces: &[(usize, &str)]) -> Result<Vec<u8>, Memory> {
    let mut text = Vec::new(alloc);
    for (count, piece) in pieces {
        for _ in 0..*count {
            text.extend_from_slice(piece.as_bytes())?;
        }
    }
    Ok(text)
}

fn are_answered(rt: &impl Abort, alloc: Global, rows: &[Row]) -> Result<(), Fail> {
    for (pieces, expected) in rows {
        let text = text_of(alloc, pieces)?;
        assert_eq!(rt; answer_to(alloc, text.as_slice())?, *expected, "{pieces:?}");
    }
    Ok(())
}

// The answer where the nest's parts stand so many times.
fn nested(alloc: Global, nest: &Nest, count: usize) -> Result<Answer, Memory> {
    let (front, opening, inside, closing, back, _, _) = nest;
    let pieces = [
        (1, *front),
        (count, *opening),
        (1, *inside),
        (count, *closing),
        (1, *back),
    ];
    let text = text_of(alloc, &pieces)?;
    answer_to(alloc, text.as_slice())
}

#[test]
fn openers_stand_open_up_to_128_at_once(rt: HostRuntime) -> Result<(), Fail> {
    let alloc = rt.alloc();
    for nest in nests::NESTS {
        let (_, opening, inside, _, _, most, token) = nest;
        let within = nested(alloc, nest, *most)?;
        let above = nested(alloc, nest, most.saturating_add(1))?;
        let wanted = (Answer::Tree, Answer::Refused(203, *token));
        assert_eq!(rt; (within, above), wanted, "{opening}{inside}");
    }
    are_answered(&rt, alloc, limits::OPEN)
}

#[test]
fn blocks_stand_in_one_another_up_to_depth_16(rt: HostRuntime) -> Result<(), Fail> {
    are_answered(&rt, rt.alloc(), limits::DEPTH)
}

#[test]
fn declarations_are_at_most_4095(rt: HostRuntime) -> Result<(), Fail> {
    are_answered(&rt, rt.alloc(), limits::DECLARATIONS)
}

#[test]
fn long_texts_are_read_and_dropped(rt: HostRuntime) -> Result<(), Fail> {
    let alloc = rt.alloc();
    for (len, pieces, expected) in limits::LONG {
        let text = text_of(alloc, pieces)?;
        let found = (text.len(), answer_to(alloc, text.as_slice())?);
        assert_eq!(rt; found, (*len, *expected), "{pieces:?}");
    }
    Ok(())
}
