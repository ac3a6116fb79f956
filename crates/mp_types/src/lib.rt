//! Relations between types, and the required identifiers.
//!
//! The crate tells whether two types are the same, compatible or assignment-compatible, and whether two headings are
//! congruous (ISO 7185, 6.4.5, 6.4.6, 6.6.3.6), which values an ordinal type has, and which required identifier a name is.
//! It stands on `mp_base`, `mp_ast` and `mp_tables`, whose definitions it is exact against. It never copies a type: only
//! `required_shape`, which makes one, takes memory. Types are compared by their identities, so that no test but
//! `congruous` goes over a list.
#![tactic(auto)]

mod compatibility;
mod congruity;
pub mod examples;
mod identities;
pub mod laws;
mod ordinals;
mod required;
mod strings;

pub use compatibility::{assignable, compatible, holds_file};
pub use congruity::congruous;
pub use identities::{same, same_if};
pub use ordinals::{Values, has_host, ordinal};
pub use required::{required_name, required_shape, standard_file};
pub use strings::{StringForm, is_string, string_form};
