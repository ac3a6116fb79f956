ghost use Rattle.std.specs.Prelude.{◌≡◌, ◌≤◌, ◌<◌, IfSome, IsTrue, Option, None, length, slice_index_or};
ghost use Rattle.std.specs.List.{position_from};
ghost use Rattle.mp_base.specs.Text.{bytes_of, lines_of};
ghost use Rattle.mp_text.specs.Refusals.{is_long};
ghost use Rattle.mp_session.specs.Replies.{limit_refusal};

use mp_base::{LINE_LIMIT, SCRIPT_LIMIT, TEXT_LIMIT};
use mp_text::TextError;

// The number of the first line that is longer than a line may be, by a look at each byte.
fn long_line_by_counting(text: &[u8]) -> Option<u32>
    requires { length text.now ≤ SCRIPT_LIMIT }
    ensures { result ≡ position_from is_long 1 (lines_of text.now) }
{
    let mut line: u32 = 1;
    let mut before = 0;
    for byte in text {
        if *byte == b'\n' {
            line += 1;
            before = 0;
        } else if before < LINE_LIMIT {
            before += 1;
        } else {
            return Some(line);
        }
    }
    None
}

// The last line end among the bytes from a place up to another.
fn last_line_end(text: &[u8], from: usize, to: usize) -> Option<usize>
    requires { to ≤ length text.now }
    ensures within { IfSome result (λ at. (from ≤ at) × (at < to)) }
    ensures ends { IfSome result (λ at. slice_index_or text.now at 0 ≡ 10) }
{
    (from..to).rev().find(|at| text[*at] == b'\n')
}

// Whether a line end stands wherever a line may be longest, so that no line is longer: a glance for each such stretch.
// Counting takes 0.4 ms for a text of 262,144 bytes in ordinary lines, and the glances next to none.
fn are_lines_short(text: &[u8]) -> bool
    ensures { IsTrue result → position_from is_long 1 (lines_of text.now) ≡ None }
{
    let mut at = 0;
    while text.len() - at > LINE_LIMIT {
        match last_line_end(text, at, at + LINE_LIMIT + 1) {
            Some(end) => at = end + 1,
            None => return false,
        }
    }
    true
}

// The number of the first line that is longer than a line may be.
fn long_line(text: &[u8]) -> Option<u32>
    requires { length text.now ≤ SCRIPT_LIMIT }
    ensures { result ≡ position_from is_long 1 (lines_of text.now) }
{
    if are_lines_short(text) {
        None
    } else {
        long_line_by_counting(text)
    }
}

/// Why a text, whose last line is ended, may not be a version: it breaks a limit.
pub(crate) fn limit_refusal(text: &[u8]) -> Option<TextError>
    requires few { length text.now ≤ SCRIPT_LIMIT }
    requires ended { text.now ≡ bytes_of (lines_of text.now) }
    ensures { result ≡ limit_refusal (lines_of text.now) }
{
    if let Some(line) = long_line(text) {
        return Some(TextError::LineLong { line });
    }
    if text.len() > TEXT_LIMIT {
        return Some(TextError::TooLong {
            bytes: text.len() as u64,
        });
    }
    None
}
