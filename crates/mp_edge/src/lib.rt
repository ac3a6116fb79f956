//! What the program reads from and writes to.
//!
//! A [`Source`] gives bytes and a [`Sink`] takes them, and both may fail. Their contracts say which bytes each call
//! gave or took, that a failed call gave or took none, and that a call fails only where a count of faults rose.
//! [`StdSource`] and [`StdSink`] stand over a reader and a writer of std: they lose, double and make up no byte, and
//! take no error for an end. [`MemSource`] and [`MemSink`] stand over memory, with calls that fail on purpose.
//! [`write_all`] writes a whole list of bytes. The crate stands on `mp_base`.
#![tactic(auto)]

mod counting;
pub mod laws;
mod mem_sink;
mod mem_source;
mod sink;
mod source;
mod std_reader;
mod std_sink;
mod std_source;
mod std_writer;
mod tries;
mod writing;

pub use mem_sink::MemSink;
pub use mem_source::MemSource;
pub use sink::{Put, Sink};
pub use source::{Got, Source};
pub use std_sink::StdSink;
pub use std_source::StdSource;
pub use tries::TRIES;
pub use writing::{WriteFailed, write_all};
