//! The stack machine: what each instruction does to a state of activations, cells, objects and files, one row of the
//! table an instruction, with the faults and limits that a run meets and their order.
//!
//! The definitions in `specs/` are total functions; where an instruction does not find what the table wants they are
//! stuck, and no promise speaks of that. Laws and examples of them are functions without a body. [`Machine`] begins a run,
//! takes codes and shows the cells and objects. Behind it each row is a function whose contract is one equation with its
//! definition: the same answer, and exactly the state after it. The crate stands on `mp_code`, `mp_memory` and `mp_files`.
#![tactic(auto)]

mod activations;
mod addresses;
mod answers;
mod calls;
mod cells;
mod codes;
pub mod examples;
mod file_moves;
mod file_queries;
mod file_starts;
mod file_writes;
mod frames;
mod given_files;
mod jumps;
pub mod laws;
mod machine;
mod numbers;
mod object_rows;
mod objects;
mod operands;
mod play;
mod play_file;
mod processor;
mod relations;
mod sets;
mod steps;
mod variables;
mod variants;

pub use answers::Gone;
pub use machine::Machine;
pub use objects::Object;
pub use operands::{Cells, Operand};
