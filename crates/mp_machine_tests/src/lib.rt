//! The tests of the crates that the machine is made of, a file for each crate, and for the machine one on its rows and
//! one on calls and limits, with codes that are written by hand.
//!
//! They ask for what no clause says: that calls succeed while memory is found, and that codes, cells and sets that were
//! worked out by hand are answered as they should be. The crate has no items beside its tests.
#![tactic(auto)]

#[cfg(test)]
mod calls;
#[cfg(test)]
mod code;
#[cfg(test)]
mod file_rows;
#[cfg(test)]
mod machine;
#[cfg(test)]
mod memory;
#[cfg(test)]
mod ops;
#[cfg(test)]
mod rows;
