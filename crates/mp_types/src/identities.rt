ghost use Rattle.std.specs.Prelude.{◌≡◌};
ghost use Rattle.mp_ast.specs.Blocks as block;
ghost use Rattle.mp_tables.specs.TypeRelations as relation;

use mp_base::Path;
use mp_tables::{TypeId, Typed};

// Whether two paths are those of one block.
fn same_path(a: &Path, b: &Path) -> bool
    ensures { result ≡ block.same_path a.now b.now }
{
    a == b
}

/// Whether two identities are those of one type.
pub fn same(a: &TypeId, b: &TypeId) -> bool
    ensures { result ≡ relation.same a.now b.now }
{
    match (a, b) {
        (TypeId::Integer, TypeId::Integer) => true,
        (TypeId::Boolean, TypeId::Boolean) => true,
        (TypeId::Char, TypeId::Char) => true,
        (TypeId::Text, TypeId::Text) => true,
        (TypeId::Own(a, at), TypeId::Own(b, other)) => *at == *other && same_path(a, b),
        _ => false,
    }
}

/// Whether two types are the same, as far as they are known: nothing is said of a missing one.
pub fn same_if(a: &Option<TypeId>, b: &Option<TypeId>) -> bool
    ensures { result ≡ relation.unless_missing relation.same a.now b.now }
{
    match (a, b) {
        (Some(a), Some(b)) => same(a, b),
        _ => true,
    }
}

// Whether two types have an identity, and the same one.
pub(crate) fn same_identity(a: &Typed, b: &Typed) -> bool
    ensures { result ≡ relation.same_identity a.now b.now }
{
    match (&a.id, &b.id) {
        (Some(a), Some(b)) => same(a, b),
        _ => false,
    }
}
