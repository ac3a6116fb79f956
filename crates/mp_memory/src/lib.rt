//! The memory of a run: cells, the roots that they stand under, sets, and integers.
//!
//! [`Store`] is a map from the numbers of roots, which are never given twice, to lists of cells: it promises what is
//! found under each root and what each call leaves there. [`MemberSet`] is a set of numbers below 256 on four lanes of
//! 64 bits, and promises to be the list of its members. Sums and products are exact, or are told to be no integers. What
//! a cell is used for the crate does not know. It stands on `mp_base`.
#![tactic(auto)]

mod bits;
mod cells;
mod integers;
pub mod laws;
mod member_set;
mod region;
mod store;

pub use cells::Cell;
pub use integers::{difference, integer, negated, product, sum};
pub use member_set::MemberSet;
pub use store::Store;
