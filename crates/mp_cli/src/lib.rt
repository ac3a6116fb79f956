//! The calls that the program `magpie` makes: from the words after its name, through the bytes that come in, to the
//! bytes that go out and the status.
//!
//! What the program promises is the contract of `run_plain`. The crate stands on all the others.
#![tactic(auto)]

mod forms;
mod reading;
mod scripts;
mod status;
mod talk;
mod top;

pub use forms::Form;
pub use status::Status;
pub use top::run_plain;
