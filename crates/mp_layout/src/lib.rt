//! How many cells types take, and where parts stand in variables and frames.
//!
//! The crate counts the cells of shapes, arrays and frames, and tells where fields and the variables of a block stand.
//! Each count is saturated: what has more cells than a program may have counts as one more than these. It stands on
//! `mp_base` and `mp_tables`, whose definitions it is exact against. It promises of them (`laws`) that what is counted is
//! the sum, and that no two parts of a frame have a cell in common.
#![tactic(auto)]

mod counts;
mod fields;
mod frames;
pub mod laws;

pub use counts::{array_cells, cells, saturated, sum_of, values_in};
pub use fields::field;
pub use frames::{Frame, Frames, offsets};
