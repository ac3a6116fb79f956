ghost use Rattle.std.specs.Prelude.{◌≡◌, [], ◌∷◌, ◌++◌, IfOk, OnOk, OnErr};

use crate::symbols::Symbol;
use crate::words::WordSymbol;
use mp_base::{Bytes, Memory, Name};
use std::alloc::Global;
use std::marker::Model;

/// What a token is (ISO 7185, 6.1).
#[derive(Drop)]
pub enum TokenKind {
    /// An identifier or a directive, in lower case (6.1.3, 6.1.4).
    Id(Name),
    /// An unsigned integer or a label, by its value, which is at most maxint (6.1.5, 6.1.6).
    Number(u64),
    /// A character-string, by the characters that it denotes: the quotes around it left out, and each pair of quotes
    /// in it one quote (6.1.7).
    Text(Bytes),
    /// A word-symbol (6.1.2).
    Word(WordSymbol),
    /// Another special symbol (6.1.2).
    Symbol(Symbol),
}

/// A token with its place in the text.
#[derive(Drop)]
pub struct Token {
    pub kind: TokenKind,
    /// The byte of the text at which the token starts, from 0.
    pub start: u32,
    /// Bytes of the token.
    pub len: u32,
}

/// A list of tokens, in the order of the text.
#[derive(Drop)]
pub struct Tokens {
    items: Vec<Token>,
}

impl Model for Tokens {
    ghost use Rattle.std.specs.Prelude.{List};
    ghost use Rattle.mp_ast.specs.declared.tokens.Token.{Token};

    ghost Value = { List Token };

    ghost view = { λ tokens. tokens.items.items };
}

impl Tokens {
    /// No tokens, with room for so many.
    pub fn with_capacity(alloc: Global, capacity: usize) -> Result<Tokens, Memory>
        ensures { IfOk result (λ tokens. tokens ≡ []) }
    {
        Ok(Tokens {
            items: Vec::with_capacity(alloc, capacity)?,
        })
    }

    /// Adds a token at the end; want of memory leaves the list as it is.
    pub fn push(&mut self, token: Token) -> Result<(), Memory>
        ensures ok { OnOk result (self.new ≡ self.old ++ token ∷ []) }
        ensures err { OnErr result (self.new ≡ self.old) }
    {
        self.items.push(token)?;
        Ok(())
    }

    /// The tokens, in order.
    pub fn get(&self) -> &[Token]
        ensures { result.now ≡ self.now }
    {
        self.items.as_slice()
    }
}
