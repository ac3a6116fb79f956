//! The tests of the program's calls: texts and scripts with what is written for them, texts and scripts at their limits,
//! and calls whose reads and writes fail.
//!
//! All answers were worked out by hand. The crate has no items beside its tests.
#![tactic(auto)]

#[cfg(test)]
mod calls;
