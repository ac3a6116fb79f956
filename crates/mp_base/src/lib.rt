//! Names, texts, places, numbers and limits that every other crate speaks of.
//!
//! The crate holds the one definition of a text and its bytes (a list of lines, each followed by byte 10), of the
//! line and column of a byte, and of every limit. It stands on no other crate of Magpie.
#![tactic(auto)]

mod bytes;
pub mod laws;
mod limits;
mod memory;
mod name;
mod numbers;
mod path;
mod place;
mod position;
mod reader;
mod steps;
mod text;

pub use bytes::Bytes;
pub use limits::{
    ACTIVATION_LIMIT, CELL_LIMIT, COMMAND_LIMIT, DECLARATION_LIMIT, DEPTH_LIMIT, LINE_LIMIT,
    MAXINT, OPENER_LIMIT, OUTPUT_LIMIT, SCRIPT_LIMIT, STEP_LIMIT, TEXT_LIMIT, VERSION_LIMIT,
    WIDTH_LIMIT, WORKER_LIMIT,
};
pub use memory::Memory;
pub use name::Name;
pub use numbers::{ClaimNo, EventNo, JobNo, Version};
pub use path::{Path, PathStep};
pub use place::{At, Place};
pub use position::Positions;
pub use reader::Reader;
pub use steps::{Counting, Steps};
pub use text::{TextLine, TextLines, end_last_line};
