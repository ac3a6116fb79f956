//! The parser of expressions.
//!
//! The crate reads variables, actual parameters and expressions (ISO 7185, 6.5 and 6.7) from a cursor over tokens;
//! chains of operators and of selectors are read by loops, and it recurses only behind a token that opens. It promises
//! that each function reads what its parser in `specs/` reads, and in `laws` that this is exactly what the grammar allows.
//! It stands on `mp_cursor` and `mp_ast`.
#![tactic(auto)]

mod expressions;
pub mod laws;
mod operators;

pub use expressions::{access, access_behind, actuals, expression};
