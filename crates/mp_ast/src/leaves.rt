ghost use Rattle.std.specs.Prelude.{◌≡◌};
ghost use Rattle.mp_ast.specs.FirstTokens.{first_of_constant};

use mp_base::{Bytes, Name};

/// An identifier where it stands (ISO 7185, 6.1.3).
#[derive(Drop)]
pub struct Identifier {
    /// The ordinal of the identifier's token among its block's own tokens, from 0.
    pub at: u32,
    pub name: Name,
}

/// An unsigned integer, or a label, where it stands (ISO 7185, 6.1.5, 6.1.6).
#[derive(Clone, Copy)]
pub struct Number {
    /// The ordinal of the number's token.
    pub at: u32,
    pub value: u64,
}

/// A character-string where it stands (ISO 7185, 6.1.7).
#[derive(Drop)]
pub struct CharacterString {
    /// The ordinal of the string's token.
    pub at: u32,
    /// The characters that it denotes; one alone is a char constant.
    pub characters: Bytes,
}

/// Which sign stands before a term or a constant (ISO 7185, 6.1.5).
#[derive(Clone, Copy, PartialEq)]
pub enum SignKind {
    Plus,
    Minus,
}

/// A sign where it stands.
#[derive(Clone, Copy)]
pub struct Sign {
    /// The ordinal of the sign's token.
    pub at: u32,
    pub kind: SignKind,
}

/// A constant (ISO 7185, 6.3). Its first token is its sign, where it has one.
#[derive(Drop)]
pub enum Constant {
    Number(Option<Sign>, Number),
    Name(Option<Sign>, Identifier),
    Text(CharacterString),
}

impl Constant {
    /// The ordinal of its first token: its sign, where it has one.
    pub fn first_token(&self) -> u32
        ensures { result ≡ first_of_constant self.now }
    {
        match self {
            Constant::Number(Some(sign), _) | Constant::Name(Some(sign), _) => sign.at,
            Constant::Number(None, number) => number.at,
            Constant::Name(None, name) => name.at,
            Constant::Text(string) => string.at,
        }
    }
}
