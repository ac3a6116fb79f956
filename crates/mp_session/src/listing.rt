ghost use Rattle.std.specs.Prelude.{◌≡◌, ◌≤◌, ◌<◌, ◌∷◌, [], All, IfOk, length};
ghost use Rattle.mp_base.specs.Text.{bytes_of, lines_of};
ghost use Rattle.mp_ast.specs.Programs.{kinds_of};
ghost use Rattle.mp_diag.specs.Codes.{IsListed};
ghost use Rattle.mp_diag.specs.Listing.{listing};
ghost use Rattle.mp_parse.specs.Errors.{first_error};
ghost use Rattle.mp_session.specs.Departure.{departure, empty_program};
ghost use Rattle.mp_session.specs.Listing.{built_or_not, not_built, parsed_listing, shown_syntax, start_at, text_listing};

use crate::departure::departure;
use itoa::Buffer;
use mp_ast::{Lexed, Token};
use mp_base::{At, Bytes, Memory, TEXT_LIMIT};
use mp_diag::{Shown, listing, position, shown_errors};
use mp_lex::lex;
use mp_parse::{ParseError, parse};
use std::alloc::Global;

// The line that says from where on a text is not built yet.
fn not_built(alloc: Global, at: At) -> Result<Bytes, Memory>
    ensures { IfOk result (λ bytes. bytes ≡ not_built at) }
{
    let mut buffer = Buffer::new();
    let mut out = Vec::from_slice(alloc, b"not built at ")?;
    out.extend_from_slice(buffer.format(at.line).as_bytes())?;
    out.push(b':')?;
    out.extend_from_slice(buffer.format(at.column).as_bytes())?;
    out.push(b'\n')?;
    Ok(Bytes::from_vec(out))
}

// What is written of a text that is a program with these tokens.
fn built_or_not(alloc: Global, text: &[u8], tokens: &[Token]) -> Result<Bytes, Memory>
    requires few { length text.now ≤ TEXT_LIMIT }
    requires ended { text.now ≡ bytes_of (lines_of text.now) }
    requires within { All (λ token. token.start < length text.now) tokens.now }
    ensures { IfOk result (λ bytes. bytes ≡ built_or_not (lines_of text.now) (departure empty_program tokens.now (length text.now))) }
{
    match departure(tokens, text.len()) {
        None => listing(alloc, &[]),
        Some(byte) => not_built(alloc, position(text, byte)),
    }
}

// The first byte of the token with this index, or the end where there is no such token.
fn start_at(tokens: &[Token], index: usize, end: usize) -> usize
    ensures { result ≡ start_at tokens.now index end }
{
    match tokens.get(index) {
        Some(token) => token.start as usize,
        None => end,
    }
}

// The listing of a text with these tokens and this one syntax error.
fn syntax_listing(
    alloc: Global,
    text: &[u8],
    tokens: &[Token],
    token: u32,
    code: u16,
) -> Result<Bytes, Memory>
    requires few { length text.now ≤ TEXT_LIMIT }
    requires ended { text.now ≡ bytes_of (lines_of text.now) }
    requires within { All (λ token. token.start < length text.now) tokens.now }
    requires listed { IsListed code }
    ensures { IfOk result (λ bytes. bytes ≡ listing (shown_syntax (lines_of text.now) tokens.now (record { token = token; code = code }) ∷ [])) }
{
    let byte = start_at(tokens, token as usize, text.len());
    let at = position(text, byte);
    listing(alloc, &[Shown { at, code }])
}

// The listing of a text without lexical errors, of which these are the tokens.
fn parsed_listing(alloc: Global, text: &[u8], lexed: &Lexed) -> Result<Bytes, Memory>
    requires few { length text.now ≤ TEXT_LIMIT }
    requires ended { text.now ≡ bytes_of (lines_of text.now) }
    requires within { All (λ token. token.start < length text.now) lexed.now.tokens }
    requires tokens { length lexed.now.tokens ≤ TEXT_LIMIT }
    ensures { IfOk result (λ bytes. bytes ≡ parsed_listing (lines_of text.now) lexed.now.tokens (first_error (kinds_of lexed.now.tokens))) }
{
    let tokens = lexed.tokens.get();
    match parse(alloc, lexed) {
        Ok(tree) => {
            drop(tree);
            built_or_not(alloc, text, tokens)
        }
        Err(ParseError::Syntax { token, code }) => {
            syntax_listing(alloc, text, tokens, token, code)
        }
        Err(ParseError::Memory) => Err(Memory),
    }
}

/// The listing of a text whose last line is ended.
pub(crate) fn text_listing(alloc: Global, text: &[u8]) -> Result<Bytes, Memory>
    requires few { length text.now ≤ TEXT_LIMIT }
    requires ended { text.now ≡ bytes_of (lines_of text.now) }
    ensures { IfOk result (λ bytes. bytes ≡ text_listing (lines_of text.now)) }
{
    let lexed = lex(alloc, text)?;
    let errors = lexed.errors.get();
    if !errors.is_empty() {
        let shown = shown_errors(alloc, text, errors)?;
        return listing(alloc, shown.as_slice());
    }
    parsed_listing(alloc, text, &lexed)
}
