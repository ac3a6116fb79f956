//! The parser of type denoters and of headings.
//!
//! The crate reads type denoters (ISO 7185, 6.4), the sections of record fields and of variables, and the headings of
//! procedures and functions (6.6) from a cursor over tokens; lists are read by loops, and it recurses only behind a
//! token that opens. It promises that each function reads what its parser in `specs/` reads, and in `laws` that this is
//! exactly what the grammar allows. It stands on `mp_cursor` and `mp_ast`.
#![tactic(auto)]

mod headings;
pub mod laws;
mod types;

pub use headings::heading;
pub use types::{denoter, section};
