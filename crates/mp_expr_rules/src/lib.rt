//! Expressions judged: their types, their trees with resolved names, and their errors.
//!
//! The crate judges variables, operators, calls and expressions (ISO 7185, 6.5, 6.6.5, 6.6.6, 6.7, 6.9) by their own trees
//! and a scope that knows what names are. It stands on `mp_ast`, `mp_tables`, `mp_types`, `mp_layout` and `mp_scope`, and
//! is exact against the definitions of `mp_tables`: what is found, which errors are reported, and what the scope is asked.
#![tactic(auto)]

mod actuals;
mod calls;
mod constants;
mod fields;
mod formals;
mod judged;
mod names;
mod nodes;
mod operators;
mod region;
mod sorts;
mod variables;

pub use judged::{
    Accessed, Entire, Expressed, Operand, Operated, Resulting, Selected, Step, Value, computed,
    wrong,
};
pub use names::{typed, typed_if, used};
pub use operators::{negated, operation, related_values};
pub use region::{Field, OpenField, Opened, Region, Use};
pub use sorts::{check_if, check_of, sort_of};
pub use variables::{field_step, follow_step, index_step, threat, variable_use};
