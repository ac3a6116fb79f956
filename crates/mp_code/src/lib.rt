//! The code of a block: instructions of the stack machine, each with its place, and the shape that a block's code must
//! have before the machine takes it.
//!
//! The instructions are plain data. What each does is for the machine to say; this crate says what each takes and puts,
//! and where it leads. [`Code::check`] promises code of the right shape, or the least index at which a clause of the
//! shape fails; a law says what the shape is good for: wherever such code is come to, an instruction stands that has its
//! operands. The crate stands on `mp_base`.
#![tactic(auto)]

mod check;
mod code;
mod effects;
pub mod examples;
mod instructions;
pub mod laws;

pub use check::OPERAND_LIMIT;
pub use code::{BadCode, Code};
pub use instructions::{
    CaseArm, FileOperation, Group, Instr, Operation, RangeFault, Relation, RequiredFile,
};
