ghost use Rattle.std.specs.Prelude.{◌≡◌, ◌++◌, ◌+◌, ◌-◌, ◌^◌, ◌<◌, IfOk, OnOk, All, map};
ghost use Rattle.std.specs.List.Sorted.{IsNonDecreasingBy};
ghost use Rattle.mp_lex.specs.Windows.{CanMove, before_place, from_place, moved_error, moved_token};

use crate::boundaries::{first_error, first_token};
use mp_ast::{LexError, LexErrors, Lexed, Token, TokenKind, Tokens};
use mp_base::{Bytes, Memory};
use std::alloc::Global;

// Another kind of the same value.
fn copied(alloc: Global, kind: &TokenKind) -> Result<TokenKind, Memory>
    ensures { IfOk result (λ made. made ≡ kind.now) }
{
    match kind {
        TokenKind::Id(name) => Ok(TokenKind::Id(name.copy()?)),
        TokenKind::Number(value) => Ok(TokenKind::Number(*value)),
        TokenKind::Text(bytes) => Ok(TokenKind::Text(Bytes::of(alloc, bytes.get())?)),
        TokenKind::Word(word) => Ok(TokenKind::Word(*word)),
        TokenKind::Symbol(symbol) => Ok(TokenKind::Symbol(*symbol)),
    }
}

// Adds copies of tokens, where what stood at `from` stands at `to`.
pub(crate) fn add_tokens(
    alloc: Global,
    out: &mut Tokens,
    tokens: &[Token],
    from: u32,
    to: u32,
) -> Result<(), Memory>
    requires { All (λ token. CanMove from to token.start) tokens.now }
    ensures { OnOk result (out.new ≡ out.old ++ map (moved_token from to) tokens.now) }
{
    'copies: for token in tokens {
        out.push(Token {
            kind: copied(alloc, &token.kind)?,
            start: token.start - from + to,
            len: token.len,
        })?;
    }
    Ok(())
}

// Adds copies of errors, where what stood at `from` stands at `to`.
pub(crate) fn add_errors(
    out: &mut LexErrors,
    errors: &[LexError],
    from: u32,
    to: u32,
) -> Result<(), Memory>
    requires { All (λ error. CanMove from to error.start) errors.now }
    ensures { OnOk result (out.new ≡ out.old ++ map (moved_error from to) errors.now) }
{
    'copies: for error in errors {
        out.push(LexError {
            start: error.start - from + to,
            len: error.len,
            code: error.code,
        })?;
    }
    Ok(())
}

// Adds copies of the tokens and errors that start before a place.
pub(crate) fn add_before(
    alloc: Global,
    tokens: &mut Tokens,
    errors: &mut LexErrors,
    old: &Lexed,
    place: u32,
) -> Result<(), Memory>
    requires tokens { IsNonDecreasingBy (λ token. token.start) old.now.tokens }
    requires errors { IsNonDecreasingBy (λ error. error.start) old.now.errors }
    ensures tokens { OnOk result (tokens.new ≡ tokens.old ++ before_place (λ token. token.start) place old.now.tokens) }
    ensures errors { OnOk result (errors.new ≡ errors.old ++ before_place (λ error. error.start) place old.now.errors) }
{
    let first = first_token(old.tokens.get(), place);
    add_tokens(alloc, tokens, &old.tokens.get()[..first], 0, 0)?;
    let first = first_error(old.errors.get(), place);
    add_errors(errors, &old.errors.get()[..first], 0, 0)?;
    Ok(())
}

// Adds copies of the tokens and errors that start at `from` or past it, where what stood at `from` stands at `to`.
pub(crate) fn add_moved(
    alloc: Global,
    tokens: &mut Tokens,
    errors: &mut LexErrors,
    old: &Lexed,
    from: u32,
    to: u32,
) -> Result<(), Memory>
    requires tokens { IsNonDecreasingBy (λ token. token.start) old.now.tokens }
    requires errors { IsNonDecreasingBy (λ error. error.start) old.now.errors }
    requires token_room { All (λ token. token.start - from + to < 2 ^ 32) old.now.tokens }
    requires error_room { All (λ error. error.start - from + to < 2 ^ 32) old.now.errors }
    ensures tokens { OnOk result (tokens.new ≡ tokens.old ++ map (moved_token from to) (from_place (λ token. token.start) from old.now.tokens)) }
    ensures errors { OnOk result (errors.new ≡ errors.old ++ map (moved_error from to) (from_place (λ error. error.start) from old.now.errors)) }
{
    let first = first_token(old.tokens.get(), from);
    add_tokens(alloc, tokens, &old.tokens.get()[first..], from, to)?;
    let first = first_error(old.errors.get(), from);
    add_errors(errors, &old.errors.get()[first..], from, to)?;
    Ok(())
}
