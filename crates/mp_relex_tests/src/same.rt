use mp_base::{SCRIPT_LIMIT, Version};
use mp_desk::Desk;
use mp_lex::{LexError, Lexed, Token, TokenKind, lex};
use std::alloc::Global;

fn same_kind(one: &TokenKind, other: &TokenKind) -> bool {
    match (one, other) {
        (TokenKind::Id(a), TokenKind::Id(b)) => a == b,
        (TokenKind::Number(a), TokenKind::Number(b)) => a == b,
        (TokenKind::Text(a), TokenKind::Text(b)) => a.get() == b.get(),
        (TokenKind::Word(a), TokenKind::Word(b)) => a == b,
        (TokenKind::Symbol(a), TokenKind::Symbol(b)) => a == b,
        _ => false,
    }
}

fn same_token(one: &Token, other: &Token) -> bool {
    one.start == other.start && one.len == other.len && same_kind(&one.kind, &other.kind)
}

fn same_error(one: &LexError, other: &LexError) -> bool {
    one.start == other.start && one.len == other.len && one.code == other.code
}

fn same(one: &Lexed, other: &Lexed) -> bool {
    let (a, b) = (one.tokens.get(), other.tokens.get());
    let (e, f) = (one.errors.get(), other.errors.get());
    a.len() == b.len()
        && e.len() == f.len()
        && a.iter().zip(b).all(|(x, y)| same_token(x, y))
        && e.iter().zip(f).all(|(x, y)| same_error(x, y))
}

/// Whether the tokens and errors of the last version are those that `lex` gives of its whole text.
pub(crate) fn is_lexed(alloc: Global, desk: &Desk) -> bool {
    let Ok(bytes) = desk.bytes(desk.texts().current()) else {
        return false;
    };
    if bytes.get().len() > SCRIPT_LIMIT {
        return false;
    }
    let Ok(whole) = lex(alloc, bytes.get()) else {
        return false;
    };
    same(desk.lexed(), &whole)
}

/// Whether the tokens and errors of the last version are those of another one.
pub(crate) fn is_lexed_as(desk: &Desk, v: Version) -> bool {
    match desk.lexed_of(v) {
        Ok(other) => same(desk.lexed(), &other),
        Err(_) => false,
    }
}
