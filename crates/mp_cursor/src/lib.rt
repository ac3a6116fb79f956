//! Reading tokens one by one, with one token of lookahead.
//!
//! The crate holds the cursor over a list of tokens that the parser reads with, and, in its `specs/`, what a parser of a
//! list of tokens is; in its `proofs/` stand the laws by which a parser of a production reads exactly what the
//! production allows, and looks at one token past those that it takes. It knows no production but those of names, signs
//! and constants. It promises of each step of the cursor which parser it is, and in `laws` that the parsers of its
//! productions read exactly what the grammar allows. `single` and `added` make the lists of a
//! tree. It stands on `mp_ast`.
#![tactic(auto)]

mod cursor;
mod failure;
pub mod laws;
mod leaves;
mod lists;
mod next;
mod productions;

pub use cursor::Cursor;
pub use failure::Failure;
pub use leaves::{begins_constant, constant, constants, identifiers, optional_sign};
pub use lists::{added, single};
pub use next::Next;
pub use productions::{Production, separated};
