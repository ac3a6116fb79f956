ghost use Rattle.std.specs.Prelude.{◌≡◌, ◌||◌};
ghost use Rattle.mp_tables.specs.TypeRelations as relation;

use crate::identities::{same, same_identity};
use crate::ordinals::share_host;
use crate::strings::{equal_length, string_form};
use mp_tables::{Bounds, Shape, Typed};

// Whether two set types are both packed or both unpacked, where both say it.
fn packed_alike(a: &Option<bool>, b: &Option<bool>) -> bool
    ensures { result ≡ relation.unless_missing relation.same_bool a.now b.now }
{
    match (a, b) {
        (Some(a), Some(b)) => *a == *b,
        _ => true,
    }
}

// Whether the base types of two set types have one host, where both have a base.
fn based_alike(a: &Option<Bounds>, b: &Option<Bounds>) -> bool
    ensures { result ≡ relation.unless_missing relation.same_host a.now b.now }
{
    match (a, b) {
        (Some(a), Some(b)) => same(&a.host, &b.host),
        _ => true,
    }
}

// Whether a type is that of `nil`.
fn is_nil(t: &Typed) -> bool
    ensures { result ≡ relation.is_nil t.now }
{
    match (&t.id, &t.shape) {
        (None, Shape::Ptr(_)) => true,
        _ => false,
    }
}

// Whether two types are ordinal with one host, or strings of one length.
fn alike(a: &Typed, b: &Typed) -> bool
    ensures { result ≡ relation.both relation.same_host (relation.ordinal a.now) (relation.ordinal b.now)
        || relation.equal_length (relation.string_form a.now.shape) (relation.string_form b.now.shape) }
{
    share_host(a, b) || equal_length(string_form(&a.shape), string_form(&b.shape))
}

// Whether the shapes of two types make them compatible.
fn compatible_shapes(a: &Typed, b: &Typed) -> bool
    ensures { result ≡ relation.compatible_shapes a.now b.now a.now.shape b.now.shape }
{
    match (&a.shape, &b.shape) {
        (Shape::SetOf(p, x), Shape::SetOf(q, y)) => packed_alike(p, q) && based_alike(x, y),
        (Shape::Ptr(_), Shape::Ptr(_)) => same_identity(a, b) || is_nil(a) || is_nil(b),
        _ => alike(a, b),
    }
}

/// Whether two types are compatible (ISO 7185, 6.4.5). A pointer type is compatible with `nil` too.
pub fn compatible(a: &Typed, b: &Typed) -> bool
    ensures { result ≡ relation.compatible a.now b.now }
{
    same_identity(a, b) || compatible_shapes(a, b)
}

/// Whether a type is a file type or holds a file.
pub fn holds_file(s: &Shape) -> bool
    ensures { result ≡ relation.holds_file s.now }
{
    match s {
        Shape::Arr(array) => array.file,
        Shape::Rec(record) => record.file,
        Shape::Text => true,
        Shape::Range(_) => false,
        Shape::Names(_) => false,
        Shape::SetOf(_, _) => false,
        Shape::Ptr(_) => false,
        Shape::Str(_) => false,
    }
}

/// Whether a value of the first type can be assigned to a variable of the second (ISO 7185, 6.4.6), as far as the types
/// say: whether it lies in the second's values is told when it is assigned.
pub fn assignable(value: &Typed, target: &Typed) -> bool
    ensures { result ≡ relation.assignable value.now target.now }
{
    if same_identity(value, target) {
        !holds_file(&target.shape)
    } else {
        compatible(value, target)
    }
}
