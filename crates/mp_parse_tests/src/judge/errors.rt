use mp_base::Memory;
use std::alloc::{AllocError, AllocFailed};
use thiserror::Error;

/// Why a family is not judged to its end.
#[derive(Debug, Drop, Error)]
pub enum JudgeError {
    #[error("out of memory")]
    Memory,
    #[error("disagreement: {0}")]
    Disagreement(String),
    #[error("not a family: {0}")]
    NoFamily(&'static str),
}

impl From<AllocError> for JudgeError {
    fn from(_: AllocError) -> Self {
        JudgeError::Memory
    }
}

impl<T: Drop> From<AllocFailed<T>> for JudgeError {
    fn from(_: AllocFailed<T>) -> Self {
        JudgeError::Memory
    }
}

impl From<Memory> for JudgeError {
    fn from(_: Memory) -> Self {
        JudgeError::Memory
    }
}
