//! The tests of the crates below the session, a file for each crate.
//!
//! They ask for what no clause says: that calls succeed while memory is found, and that texts, lines and errors that were
//! worked out by hand are answered as they should be. `parser` has texts at the limits of the grammar with the code and
//! the place of each error: 128 and 129 openers of each kind, blocks of depth 16 and 17, 4,095 and 4,096 declarations,
//! texts of 262,144 bytes, and the longest lists of each kind that fit into a text; of a tree it asks only that there is
//! one. Which tree a text has is tested in `mp_parse_tests`. `equality` has pairs of texts that differ in one thing, and
//! whether the trees of their blocks are the same. The crate has no items beside its tests.
#![tactic(auto)]

#[cfg(test)]
mod base;
#[cfg(test)]
mod edge;
#[cfg(test)]
mod equality;
#[cfg(test)]
mod lexer;
#[cfg(test)]
mod parser;
#[cfg(test)]
mod script;
#[cfg(test)]
mod text;
