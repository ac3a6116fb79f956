//! The versions of a text, and the edits that make them.
//!
//! [`Texts`] keeps every version of a text. A version is a list of lines; version 1 is empty, and each [`Edit`] and
//! each step back to an older version adds a new one, so no version ever changes. It is kept as pieces of bytes, and
//! versions share the pieces in which they do not differ; this no contract shows. The crate promises that the new
//! version is the edit's as a function on lists of lines, that each refusal comes exactly where it is due and in one
//! order, that the limits of a version are kept, and that nothing changes where a call gives an error. It knows nothing
//! of the language that the text is written in. It stands on `mp_base`.
#![tactic(auto)]

mod bytes;
mod edits;
mod ends;
mod errors;
pub mod laws;
mod piece;
mod pieces;
mod prepared;
mod ranges;
mod shared;
mod sizes;
mod texts;

pub use edits::Edit;
pub use errors::TextError;
pub use pieces::VersionReader;
pub use prepared::Prepared;
pub use texts::Texts;
