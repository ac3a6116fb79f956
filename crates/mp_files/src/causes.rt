use thiserror::Error;

/// The fault of a number that is read and lies outside the integers.
pub const INTEGER_OVERFLOW: u8 = 1;

/// The fault of reading at the end of a file.
pub const END_OF_FILE: u8 = 11;

/// The fault of reading a file that is not in reading, of writing one that is not in writing, and of asking a closed one
/// for its end.
pub const WRONG_STATE: u8 = 12;

/// The fault of reading an integer where there are characters but no digits.
pub const NO_NUMBER: u8 = 13;

/// The fault of a field width below 1.
pub const WIDTH_BELOW_ONE: u8 = 14;

/// The limit on the width of a field.
pub const WIDTH_TOO_LARGE: u8 = 3;

/// The limit on the bytes that a run writes to all its files.
pub const FILE_BYTES: u8 = 4;

/// Why a call on a file, or on a field of `write`, ends without a value.
#[derive(Clone, Copy, Debug, PartialEq, Eq, Error)]
pub enum FileEnd {
    /// The fault of this number.
    #[error("fault {0}")]
    Fault(u8),
    /// The limit of this number.
    #[error("limit {0}")]
    Limit(u8),
    /// Memory was refused, which may happen at any call that makes, fills or ends a file or makes a field.
    #[error("out of memory")]
    Memory,
}
