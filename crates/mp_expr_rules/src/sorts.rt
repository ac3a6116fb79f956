// The sorts of values, and what is tested before one is stored (ISO 7185, 6.4.6).
ghost use Rattle.std.specs.Prelude.{◌≡◌};
ghost use Rattle.mp_tables.specs.Variables as rule;

use mp_layout::cells;
use mp_tables::{Bounds, Check, Shape, Sort, Typed};
use mp_types::ordinal;

/// What the values of a type are on the machine.
pub fn sort_of(t: &Typed) -> Sort
    ensures { result ≡ rule.sort_of t.now }
{
    if ordinal(t).is_some() {
        return Sort::Ordinal;
    }
    match &t.shape {
        Shape::SetOf(_, _) => Sort::Set,
        Shape::Ptr(_) => Sort::Pointer,
        Shape::Text => Sort::File,
        Shape::Range(_) => Sort::Block(cells(&t.shape)),
        Shape::Names(_) => Sort::Block(cells(&t.shape)),
        Shape::Arr(_) => Sort::Block(cells(&t.shape)),
        Shape::Rec(_) => Sort::Block(cells(&t.shape)),
        Shape::Str(_) => Sort::Block(cells(&t.shape)),
    }
}

// What is tested of a set before it is stored: that its members lie in the base.
fn members_check(base: &Option<Bounds>) -> Check
    ensures { result ≡ rule.members_check base.now }
{
    match base {
        Some(bounds) => Check::Members(bounds.low, bounds.high),
        None => Check::Members(0, 255),
    }
}

/// What is tested before a value is stored in a variable of a type.
pub fn check_of(t: &Typed) -> Check
    ensures { result ≡ rule.check_of t.now }
{
    if let Some(values) = ordinal(t) {
        return Check::Range(values.low, values.high);
    }
    match &t.shape {
        Shape::SetOf(_, base) => members_check(base),
        Shape::Ptr(_) => Check::Pointer,
        Shape::Text => Check::Block(cells(&t.shape)),
        Shape::Range(_) => Check::Block(cells(&t.shape)),
        Shape::Names(_) => Check::Block(cells(&t.shape)),
        Shape::Arr(_) => Check::Block(cells(&t.shape)),
        Shape::Rec(_) => Check::Block(cells(&t.shape)),
        Shape::Str(_) => Check::Block(cells(&t.shape)),
    }
}

/// The same, where the type may be missing: then nothing is stored.
pub fn check_if(t: &Option<Typed>) -> Check
    ensures { result ≡ rule.check_if t.now }
{
    match t {
        Some(t) => check_of(t),
        None => Check::Pointer,
    }
}
