//! The text files of a run, in memory, and the fields of `write`.
//!
//! A text file is a list of characters and line ends with a position and a state (ISO 7185, 6.4.3.5); the definitions of
//! its calls stand in `specs/`, free of any code. [`Files`] keeps the files of a run by number and promises that each call
//! gives what its definition says, changes no other file, and has each fault and limit exactly where and in the order in
//! which they are due. [`field_int`], [`field_bool`] and [`field_chars`] give the bytes of a field of `write`. The crate
//! knows no program and keeps no buffer variable: [`Files::shown`] says what one becomes. A file is kept as its bytes; the
//! bytes of `output` are a slice. It stands on `mp_base` for limits and bytes, and on `itoa` for digits.
#![tactic(auto)]

mod causes;
pub mod examples;
mod fields;
mod files;
mod item_list;
mod items;
mod marks;
mod reading;
mod stored_file;

pub use causes::{
    END_OF_FILE, FILE_BYTES, FileEnd, INTEGER_OVERFLOW, NO_NUMBER, WIDTH_BELOW_ONE,
    WIDTH_TOO_LARGE, WRONG_STATE,
};
pub use fields::{field_bool, field_chars, field_int};
pub use files::Files;
pub use items::Item;
