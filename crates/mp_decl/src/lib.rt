//! What a block declares, and the errors of its declarations.
//!
//! The crate judges the declarations of a block (ISO 7185, 6.2 to 6.6, 6.10) by its own tree and a scope that knows the
//! blocks around it. It stands on `mp_ast`, `mp_tables`, `mp_types`, `mp_layout` and `mp_scope`, and is exact against the
//! definitions of `mp_tables`: what is found, which errors are reported, and what the scope is asked.
#![tactic(auto)]

mod arrays;
mod constants;
mod enumerations;
mod frames;
mod heading_types;
mod known;
mod names;
mod ordinals;
mod parameters;
mod routine_headings;
mod simple;
mod slots;
mod types;
mod walks;

pub use constants::constant;
pub use frames::Slots;
pub use known::{Headed, Known};
pub use parameters::{FormalParameter, parameters_in};
pub use walks::{Walked, walk_all};
