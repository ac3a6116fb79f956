ghost use Rattle.std.specs.Prelude.{◌≡◌};
ghost use Rattle.mp_session.specs.Departure.{is_of, departure, empty_program};

use mp_ast::{Symbol, Token, TokenKind, WordSymbol};

/// A token of the empty program, `program` identifier `;` `begin` `end` `.`.
#[derive(Clone, Copy)]
pub enum ProgramPart {
    Program,
    Identifier,
    Semicolon,
    Begin,
    End,
    Dot,
}

/// The tokens of the empty program, in order.
const EMPTY_PROGRAM: [ProgramPart; 6] = [
    ProgramPart::Program,
    ProgramPart::Identifier,
    ProgramPart::Semicolon,
    ProgramPart::Begin,
    ProgramPart::End,
    ProgramPart::Dot,
];

// Whether a token of this kind is this part.
fn is_of(part: ProgramPart, kind: &TokenKind) -> bool
    ensures { result ≡ is_of part kind.now }
{
    match (part, kind) {
        (ProgramPart::Program, TokenKind::Word(WordSymbol::Program)) => true,
        (ProgramPart::Identifier, TokenKind::Id(_)) => true,
        (ProgramPart::Semicolon, TokenKind::Symbol(Symbol::Semicolon)) => true,
        (ProgramPart::Begin, TokenKind::Word(WordSymbol::Begin)) => true,
        (ProgramPart::End, TokenKind::Word(WordSymbol::End)) => true,
        (ProgramPart::Dot, TokenKind::Symbol(Symbol::Dot)) => true,
        _ => false,
    }
}

// The first byte at which the tokens depart from these parts.
fn departure_from(parts: &[ProgramPart], tokens: &[Token], end: usize) -> Option<usize>
    ensures { result ≡ departure parts.now tokens.now end }
{
    for (i, token) in tokens.iter().enumerate() {
        if i >= parts.len() {
            return Some(token.start as usize);
        }
        if !is_of(parts[i], &token.kind) {
            return Some(token.start as usize);
        }
    }
    if tokens.len() < parts.len() {
        return Some(end);
    }
    None
}

/// The first byte at which these tokens depart from those of the empty program, `end` being the text's end.
pub(crate) fn departure(tokens: &[Token], end: usize) -> Option<usize>
    ensures { result ≡ departure empty_program tokens.now end }
{
    departure_from(&EMPTY_PROGRAM, tokens, end)
}
