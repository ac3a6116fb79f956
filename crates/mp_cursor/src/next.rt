ghost use Rattle.std.specs.Prelude.{◌≡◌, ◌↔◌, IsTrue};
ghost use Rattle.mp_cursor.specs.Nexts.{class_of, is};

use mp_ast::{Symbol, TokenKind, WordSymbol};

/// What the next token is, whatever name, number or string it holds.
#[derive(Clone, Copy, PartialEq, Eq)]
pub enum Next {
    Identifier,
    Number,
    Text,
    Word(WordSymbol),
    Symbol(Symbol),
    /// There is no token left.
    End,
}

/// What a token of this kind is.
pub(crate) fn class(kind: &TokenKind) -> Next
    ensures { result ≡ class_of kind.now }
{
    match kind {
        TokenKind::Id(_) => Next::Identifier,
        TokenKind::Number(_) => Next::Number,
        TokenKind::Text(_) => Next::Text,
        TokenKind::Word(word) => Next::Word(*word),
        TokenKind::Symbol(symbol) => Next::Symbol(*symbol),
    }
}

// The two as a fact.
fn equal(a: Next, b: Next) -> bool
    ensures { IsTrue result ↔ (a ≡ b) }
{
    a == b
}

/// Whether the two are the same.
#[tactic(auto, using(crate::proofs::NextLemmas::is_test))]
pub(crate) fn same(a: Next, b: Next) -> bool
    ensures { result ≡ is a b }
{
    equal(a, b)
}
