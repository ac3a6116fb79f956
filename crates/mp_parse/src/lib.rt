//! The parser: the tree of exactly the programs.
//!
//! The crate reads blocks and programs (ISO 7185, 6.2 and 6.10) from the tokens of a text. It promises that `parse`
//! answers a tree exactly where the tokens have one by the grammar of `mp_ast`, and that one; that its error names the
//! first token with which no program begins, with the code of the cause; and of the definitions, that no list of tokens
//! has two trees, or two first errors, or one of each; that each has one of them; and that a nested block is read by its
//! own tokens alone. A statement part can be read by itself, and tells its `begin` where it stops. It must never look at
//! names but for `forward`, nor judge what a program means. It stands on `mp_parse_stmt`, `mp_parse_type` and the crates
//! below them.
#![tactic(auto)]

mod blocks;
mod errors;
pub mod laws;
mod parser;
mod parts;
mod stopped;

pub use errors::ParseError;
pub use parser::parse;
pub use stopped::{StoppedPart, read_statement_part};
