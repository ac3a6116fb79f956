// The bytes of a `write` field (ISO 7185, 6.9.3).
ghost use Rattle.std.specs.Prelude.{◌≡◌, ◌≤◌, ◌++◌, IfOk, IfErr, OnOk, Some, None, length, pos};
ghost use Rattle.mp_base.specs.declared.limits.TheConstants.{WIDTH_LIMIT};
ghost use Rattle.mp_files.specs.RunFiles.{IsDue};
ghost use Rattle.mp_files.specs.WrittenFields.{character_field, integer_field, padded, padded_or_cut, truth_field, width_of, width_refusal};

use crate::causes::{FileEnd, WIDTH_BELOW_ONE, WIDTH_TOO_LARGE};
use itoa::Buffer;
use mp_base::{Bytes, Memory, WIDTH_LIMIT};
use std::alloc::Global;

// The width of a field, where it is not refused.
fn width_in_range(width: i64) -> Result<usize, FileEnd>
    ensures ok { OnOk result (width_refusal width ≡ None) }
    ensures value { IfOk result (λ n. n ≡ width_of width) }
    ensures small { IfOk result (λ n. n ≤ WIDTH_LIMIT) }
    ensures err { IfErr result (λ e. width_refusal width ≡ Some e) }
{
    if width < 1 {
        return Err(FileEnd::Fault(WIDTH_BELOW_ONE));
    }
    if width > i64::from(WIDTH_LIMIT) {
        return Err(FileEnd::Limit(WIDTH_TOO_LARGE));
    }
    Ok(width as usize)
}

// Spaces and then the text, in at least the width.
fn padded(alloc: Global, width: usize, text: &[u8]) -> Result<Vec<u8>, Memory>
    ensures { IfOk result (λ made. made.items ≡ padded width text.now) }
{
    let mut made = vec![in alloc; b' '; width.saturating_sub(text.len())]?;
    made.extend_from_slice(text)?;
    Ok(made)
}

// Spaces and then the text, cut to the width.
fn padded_or_cut(alloc: Global, width: usize, text: &[u8]) -> Result<Vec<u8>, Memory>
    ensures { IfOk result (λ made. made.items ≡ padded_or_cut width text.now) }
{
    let mut made = padded(alloc, width, text)?;
    made.truncate(width);
    Ok(made)
}

/// The bytes of an integer in a field of a width (ISO 7185, 6.9.3.2): right-justified, and whole where it is longer. Fault
/// 14 exactly where the width is below 1, limit 3 exactly where it is above `WIDTH_LIMIT`.
pub fn field_int(alloc: Global, value: i64, width: i64) -> Result<Bytes, FileEnd>
    ensures width { OnOk result (width_refusal width ≡ None) }
    ensures bytes { IfOk result (λ made. made ≡ integer_field (width_of width) value) }
    ensures refused { IfErr result (λ e. IsDue e (width_refusal width)) }
{
    let width = match width_in_range(width) {
        Ok(width) => width,
        Err(e) => return Err(e),
    };
    let mut digits = Buffer::new();
    match padded(alloc, width, digits.format(value).as_bytes()) {
        Ok(made) => Ok(Bytes::from_vec(made)),
        Err(Memory) => Err(FileEnd::Memory),
    }
}

/// The bytes of a string or a character in a field of a width (ISO 7185, 6.9.3.3, 6.9.3.6): spaces in front, or its first
/// characters alone. Fault 14 exactly where the width is below 1, limit 3 exactly where it is above `WIDTH_LIMIT`.
pub fn field_chars(alloc: Global, chars: &[u8], width: i64) -> Result<Bytes, FileEnd>
    ensures width { OnOk result (width_refusal width ≡ None) }
    ensures bytes { IfOk result (λ made. made ≡ character_field (width_of width) chars.now) }
    ensures refused { IfErr result (λ e. IsDue e (width_refusal width)) }
{
    let width = match width_in_range(width) {
        Ok(width) => width,
        Err(e) => return Err(e),
    };
    match padded_or_cut(alloc, width, chars) {
        Ok(made) => Ok(Bytes::from_vec(made)),
        Err(Memory) => Err(FileEnd::Memory),
    }
}

/// The bytes of a Boolean value, `True` or `False`, in a field of a width (ISO 7185, 6.9.3.5), as those of a string.
pub fn field_bool(alloc: Global, value: bool, width: i64) -> Result<Bytes, FileEnd>
    ensures width { OnOk result (width_refusal width ≡ None) }
    ensures bytes { IfOk result (λ made. made ≡ truth_field (width_of width) value) }
    ensures refused { IfErr result (λ e. IsDue e (width_refusal width)) }
{
    if value {
        field_chars(alloc, b"True", width)
    } else {
        field_chars(alloc, b"False", width)
    }
}
