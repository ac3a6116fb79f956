//! The versions of a text with their tokens.
//!
//! [`Desk`] makes versions as `mp_text` does, under the same refusals, and takes the tokens of each new version from
//! those of the last one by `mp_lex::relex`, which reads bytes only round the change. It promises that the tokens and
//! lexical errors of a version are those of its bytes alone, how many bytes an edit reads at most, and that nothing
//! changes where a call gives an error. It never looks at what a token means. It stands on `mp_text` for the versions,
//! on `mp_lex` for the tokens, and on `mp_ast` and `mp_base`.
//!
//! ```text
//! let mut desk = Desk::new(alloc)?;
//! let mut steps = Steps::new();
//! let v = desk.edit(Edit::Insert { after: 0, lines }, &mut steps)?;     // version 2
//! let tokens = desk.lexed().tokens.get();                                // those of version 2
//! desk.back(Version(1), &mut steps)?;                                    // version 3, as empty as version 1
//! ```
#![tactic(auto)]

mod desk;
pub mod laws;

pub use desk::Desk;
