ghost use Rattle.std.specs.Prelude.{◌≡◌, ◌≤◌, IfOk, length};
ghost use Rattle.mp_script.specs.Access.{after, have_form, is_access, is_complete, part_of, part_of_symbol, parts_of};

use mp_ast::{Symbol, Token, TokenKind};
use mp_base::{Memory, SCRIPT_LIMIT};
use mp_lex::lex;
use std::alloc::Global;

/// What a token is in an access.
#[derive(Clone, Copy)]
pub enum AccessPart {
    Name,
    Number,
    /// A character-string of one element.
    Char,
    /// `+` or `-`
    Sign,
    Dot,
    Caret,
    /// `[`
    Open,
    Comma,
    /// `]`
    Close,
    /// A token that stands in no access.
    Other,
}

/// What may come next in an access.
#[derive(Clone, Copy)]
pub enum Stage {
    /// The name that an access begins with.
    Start,
    /// A selector, or the end.
    Selectors,
    /// The name of a field.
    Field,
    /// An index.
    Index,
    /// The number behind a sign.
    Number,
    /// A comma or the closing bracket.
    Close,
    /// Nothing: what came begins no access.
    Wrong,
}

fn part_of_symbol(symbol: Symbol) -> AccessPart
    ensures { result ≡ part_of_symbol symbol }
{
    match symbol {
        Symbol::Plus | Symbol::Minus => AccessPart::Sign,
        Symbol::LeftBracket => AccessPart::Open,
        Symbol::RightBracket => AccessPart::Close,
        Symbol::Dot => AccessPart::Dot,
        Symbol::Comma => AccessPart::Comma,
        Symbol::Caret => AccessPart::Caret,
        Symbol::Star
        | Symbol::Equal
        | Symbol::Less
        | Symbol::Greater
        | Symbol::Colon
        | Symbol::Semicolon
        | Symbol::LeftParen
        | Symbol::RightParen
        | Symbol::NotEqual
        | Symbol::LessEqual
        | Symbol::GreaterEqual
        | Symbol::Assign
        | Symbol::DotDot => AccessPart::Other,
    }
}

fn part_of(kind: &TokenKind) -> AccessPart
    ensures { result ≡ part_of kind.now }
{
    match kind {
        TokenKind::Id(_) => AccessPart::Name,
        TokenKind::Number(_) => AccessPart::Number,
        TokenKind::Text(bytes) => match bytes.get() {
            [_] => AccessPart::Char,
            _ => AccessPart::Other,
        },
        TokenKind::Word(_) => AccessPart::Other,
        TokenKind::Symbol(symbol) => part_of_symbol(*symbol),
    }
}

fn after(stage: Stage, part: AccessPart) -> Stage
    ensures { result ≡ after stage part }
{
    match (stage, part) {
        (Stage::Start | Stage::Field, AccessPart::Name) => Stage::Selectors,
        (Stage::Selectors, AccessPart::Dot) => Stage::Field,
        (Stage::Selectors, AccessPart::Caret) => Stage::Selectors,
        (Stage::Selectors, AccessPart::Open) => Stage::Index,
        (Stage::Index, AccessPart::Name | AccessPart::Number | AccessPart::Char) => Stage::Close,
        (Stage::Index, AccessPart::Sign) => Stage::Number,
        (Stage::Number, AccessPart::Number) => Stage::Close,
        (Stage::Close, AccessPart::Comma) => Stage::Index,
        (Stage::Close, AccessPart::Close) => Stage::Selectors,
        _ => Stage::Wrong,
    }
}

fn is_complete(stage: Stage) -> bool
    ensures { result ≡ is_complete stage }
{
    match stage {
        Stage::Selectors => true,
        Stage::Start | Stage::Field | Stage::Index | Stage::Number | Stage::Close | Stage::Wrong =>
            false,
    }
}

fn have_form(tokens: &[Token]) -> bool
    ensures { result ≡ have_form (parts_of tokens.now) }
{
    let mut stage = Stage::Start;
    'tokens: for token in tokens {
        stage = after(stage, part_of(&token.kind));
    }
    is_complete(stage)
}

// Whether these bytes are an access.
#[tactic(auto, unfolding(crate::specs::Access::is_access))]
pub(crate) fn is_access(alloc: Global, bytes: &[u8]) -> Result<bool, Memory>
    requires { length bytes.now ≤ SCRIPT_LIMIT }
    ensures { IfOk result (λ is. is ≡ is_access bytes.now) }
{
    let lexed = lex(alloc, bytes)?;
    if !lexed.errors.get().is_empty() {
        return Ok(false);
    }
    Ok(have_form(lexed.tokens.get()))
}
