//! The bytes of a listing.
//!
//! A listing names each error by its place, its code and its text, a line each: `line:column code text`; a text
//! without errors is listed as the one line `accepted`. The crate holds the one table of all codes and their texts
//! and promises the exact bytes for the errors that it is given, in their order, and the exact line and column of
//! each lexical error. It finds no errors and orders none. It stands on `mp_base` for places and bytes, on `mp_ast`
//! for the lexical errors and on `itoa` for the digits of numbers.
#![tactic(auto)]

pub mod laws;
mod lines;
mod messages;
mod shown;

pub use lines::listing;
pub use shown::{Shown, position, shown_errors};

#[cfg(test)]
mod tests;
