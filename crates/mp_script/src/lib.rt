//! The lines and the commands of a script.
//!
//! The crate cuts the bytes of a script into lines, in whatever pieces they come, and reads commands from lines. It
//! promises that a line is bad exactly where it is too long or of no command's form, which it says word by word, and
//! that it fails but for that only for want of memory. It obeys no command. It stands on `mp_lex` for the tokens of an
//! access and on `mp_base`.
#![tactic(auto)]

mod access;
mod commands;
mod keywords;
pub mod laws;
mod lines;
mod numbers;
mod parsing;
mod words;

pub use commands::{BadLine, Command, Verb};
pub use lines::Lines;
pub use parsing::command;
