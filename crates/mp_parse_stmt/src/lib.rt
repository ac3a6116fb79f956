//! The parser of statements.
//!
//! The crate reads statements and sequences of them (ISO 7185, 6.8) from a cursor over tokens; lists of statements, of
//! arms and of records are read by loops, and it recurses only behind a token that opens. It promises that each function
//! reads what its parser in `specs/` reads, and in `laws` that this is what the grammar allows, and all of it where such a
//! token follows as may follow a statement. It stands on `mp_parse_expr`, `mp_cursor` and `mp_ast`.
#![tactic(auto)]

mod heads;
pub mod laws;
mod simple;
mod statements;

pub use statements::{sequence, statement};
