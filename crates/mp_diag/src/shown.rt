ghost use Rattle.std.specs.Prelude.{◌≡◌, ◌-◌, ◌^◌, ◌<◌, ◌≤◌, All, IfOk, length};
ghost use Rattle.mp_base.specs.Position.{position_of};
ghost use Rattle.mp_base.specs.Text.{bytes_of, lines_of};
ghost use Rattle.mp_diag.specs.Listing.{shown_errors};

use mp_ast::LexError;
use mp_base::{At, Memory, Positions};
use std::alloc::Global;

/// An error as a listing shows it.
#[derive(Clone, Copy)]
pub struct Shown {
    /// Where the error stands.
    pub at: At,
    /// What is wrong: a code of 101 to 351 that has a text.
    pub code: u16,
}

/// The line and column of a byte of a text whose last line is ended, or of its end, where `byte` is the number of its
/// bytes: the end of n lines stands at line n + 1, column 1.
pub fn position(text: &[u8], byte: usize) -> At
    requires short { length text.now < 2 ^ 32 - 1 }
    requires ended { text.now ≡ bytes_of (lines_of text.now) }
    requires within { byte ≤ length text.now }
    ensures { result ≡ position_of (lines_of text.now) byte }
{
    Positions::new(text).find(byte)
}

/// The lexical errors of a text, whose last line is ended, as a listing shows them, each with its line and column, in
/// the order given. Errors in the order of the text take one pass over it.
pub fn shown_errors(alloc: Global, text: &[u8], errors: &[LexError]) -> Result<Vec<Shown>, Memory>
    requires short { length text.now < 2 ^ 32 - 1 }
    requires ended { text.now ≡ bytes_of (lines_of text.now) }
    requires within { All (λ error. error.start ≤ length text.now) errors.now }
    ensures { IfOk result (λ shown. shown.items ≡ shown_errors (lines_of text.now) errors.now) }
{
    let mut positions = Positions::new(text);
    let mut shown = Vec::new(alloc);
    for error in errors {
        shown.push(Shown {
            at: positions.find(error.start as usize),
            code: error.code,
        })?;
    }
    Ok(shown)
}
