//! Tokens and lexical errors (ISO 7185, 6.1).
//!
//! The crate splits the bytes of a text into items, each the longest at its place: separators, tokens and lexical
//! errors. It promises that a text has exactly one such split, that `lex` gives exactly its tokens and its errors, each
//! list in the order of the text, that two bytes after an item's last byte decide where it ends, and that `relex` gives
//! the same of a changed text and reads bytes only round the change. It never parses, and never fails but for want of
//! memory. It stands on `mp_ast` for the types and on `mp_base`.
#![tactic(auto)]

mod ahead;
mod boundaries;
mod cause;
mod change;
mod comments;
mod copies;
mod items;
pub mod laws;
mod lexer;
mod marks;
mod meaning;
mod numbers;
mod relexer;
mod strings;
mod symbols;
mod window;
mod words;

pub use change::Change;
pub use lexer::lex;
pub use mp_ast::{LexError, LexErrors, Lexed, Symbol, Token, TokenKind, Tokens, WordSymbol};
pub use relexer::relex;
