ghost use Rattle.std.specs.Prelude.{◌≡◌, ◌++◌, ◌∷◌, [], All, IfOk, OnOk, decimal};
ghost use Rattle.mp_diag.specs.Codes.{IsListed};
ghost use Rattle.mp_diag.specs.Listing.{error_line, listing};

use crate::messages::text_of;
use crate::shown::Shown;
use itoa::Buffer;
use mp_base::{Bytes, Memory};
use std::alloc::Global;

// Adds a number and a byte after it.
fn add_number(out: &mut Vec<u8>, number: u32, after: u8) -> Result<(), Memory>
    ensures { OnOk result (out.new.items ≡ out.old.items ++ (decimal number ++ after ∷ [])) }
{
    let mut buffer = Buffer::new();
    out.extend_from_slice(buffer.format(number).as_bytes())?;
    out.push(after)?;
    Ok(())
}

// Adds the line of an error.
fn add_line(out: &mut Vec<u8>, error: Shown) -> Result<(), Memory>
    requires { IsListed error.code }
    ensures { OnOk result (out.new.items ≡ out.old.items ++ error_line error) }
{
    let Some(text) = text_of(error.code) else {
        unreachable!()
    };
    add_number(out, error.at.line, b':')?;
    add_number(out, error.at.column, b' ')?;
    add_number(out, u32::from(error.code), b' ')?;
    out.extend_from_slice(text.as_bytes())?;
    out.push(b'\n')?;
    Ok(())
}

/// The listing of these errors, in the order given: a line `line:column code text` for each, or the one line
/// `accepted` where there is none.
pub fn listing(alloc: Global, errors: &[Shown]) -> Result<Bytes, Memory>
    requires { All (λ error. IsListed error.code) errors.now }
    ensures { IfOk result (λ bytes. bytes ≡ listing errors.now) }
{
    let mut out = Vec::new(alloc);
    if errors.is_empty() {
        out.extend_from_slice(b"accepted\n")?;
        return Ok(Bytes::from_vec(out));
    }
    for error in errors {
        add_line(&mut out, *error)?;
    }
    Ok(Bytes::from_vec(out))
}
