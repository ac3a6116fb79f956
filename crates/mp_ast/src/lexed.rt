use crate::errors::LexErrors;
use crate::tokens::Tokens;

/// A text as the lexer sees it: its tokens and its lexical errors, each list in the order of the text.
#[derive(Drop)]
pub struct Lexed {
    pub tokens: Tokens,
    pub errors: LexErrors,
}
