// Where an ordinal type is wanted: index types, tag types, and base types of sets (ISO 7185, 6.4.3).
ghost use Rattle.std.specs.Prelude.{Some};
ghost use Rattle.mp_tables.specs.declared.types.Shape.TheVariants as shape;
ghost use Rattle.mp_tables.specs.Reports.{Follows, ◌>>=◌ as ◌>>=ʳ◌};
ghost use Rattle.mp_tables.specs.TypeRelations as relation;
ghost use Rattle.mp_tables.specs.Denoters as rule;
ghost use Rattle.mp_decl.specs.Judged.{known_of, MayAskIf};

use crate::known::Known;
use crate::names::report;
use crate::simple::new_type;
use crate::types::typed_here;
use mp_base::{Memory, Path};
use mp_scope::Scope;
use mp_tables::{Bounds, RuleError, Shape, TypeId, Typed};
use mp_types::ordinal;
use sqlite_items::Items;
use std::alloc::Global;

// The values of a type that must be ordinal.
fn ordinal_values<S: Scope>(
    at: u32,
    t: &Typed,
    scope: &mut S,
    errors: &mut Items<RuleError>,
) -> Result<Option<Bounds>, Memory>
    ensures { Follows (rule.ordinal_by at (relation.ordinal t.now)) (S.state scope.old) errors.old (S.state scope.new) errors.new result }
{
    match ordinal(t) {
        Some(values) => Ok(Some(Bounds {
            host: values.host.copy()?,
            low: values.low,
            high: values.high,
        })),
        None => {
            report(318, at, errors)?;
            Ok(None)
        }
    }
}

/// The values of a type that must be ordinal, where it is not missing; an error stands at this ordinal.
pub(crate) fn ordinal_type<S: Scope>(
    alloc: Global,
    path: &Path,
    at: u32,
    id: Option<TypeId>,
    scope: &mut S,
    known: &mut Known,
) -> Result<Option<Bounds>, Memory>
    requires { MayAskIf (S.state scope.old).stands path.now id }
    ensures { Follows (rule.ordinal_type path.now at id) (S.state scope.old) (known_of known.old) (S.state scope.new) (known_of known.new) result }
{
    match id {
        Some(id) => {
            let t = typed_here(alloc, path, id, scope, known)?;
            ordinal_values(at, &t, scope, &mut known.errors)
        }
        None => Ok(None),
    }
}

// The values of the base type of a set, which must lie in 0..255.
fn base_by<S: Scope>(
    at: u32,
    values: Option<Bounds>,
    scope: &mut S,
    errors: &mut Items<RuleError>,
) -> Result<Option<Bounds>, Memory>
    ensures { Follows (rule.base_by at values) (S.state scope.old) errors.old (S.state scope.new) errors.new result }
{
    match values {
        Some(values) => {
            if 0 <= values.low && values.high <= 255 {
                return Ok(Some(values));
            }
            report(319, at, errors)?;
            Ok(None)
        }
        None => Ok(None),
    }
}

/// A set type with this base (ISO 7185, 6.4.3.4), whose denoter has the ordinal `at`, and its base type's the ordinal
/// `base_at`.
pub(crate) fn set_type<S: Scope>(
    path: &Path,
    at: u32,
    packed: bool,
    base_at: u32,
    values: Option<Bounds>,
    scope: &mut S,
    known: &mut Known,
) -> Result<Option<TypeId>, Memory>
    ensures { Follows (rule.by_rule (rule.base_by base_at values) >>=ʳ (λ base. rule.new_type path.now at (shape.SetOf (Some packed) base))) (S.state scope.old) (known_of known.old) (S.state scope.new) (known_of known.new) result }
{
    let base = base_by(base_at, values, scope, &mut known.errors)?;
    new_type(path, at, Shape::SetOf(Some(packed), base), scope, known)
}
