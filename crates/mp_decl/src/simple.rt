// Simple types: enumerations and subranges, and what an ordinal type is wanted for (ISO 7185, 6.4.2).
ghost use Rattle.mp_ast.specs.FirstTokens.{first_of_constant};
ghost use Rattle.mp_tables.specs.Reports.{Follows, ◌>>=◌ as ◌>>=ʳ◌};
ghost use Rattle.mp_tables.specs.Denoters as rule;
ghost use Rattle.mp_decl.specs.Judged.{known_of};

use crate::constants::constant;
use crate::known::Known;
use crate::names::report;
use mp_ast::Constant;
use mp_base::{Memory, Name, Path};
use mp_scope::Scope;
use mp_tables::{Bounds, ConstantValue, Decl, RuleError, Shape, Shaped, TypeId};
use mp_types::same;
use sqlite_items::Items;
use std::alloc::Global;

// The values of a subrange, by its bounds.
fn bounds_by<S: Scope>(
    at: u32,
    first: Option<ConstantValue>,
    last: Option<ConstantValue>,
    scope: &mut S,
    errors: &mut Items<RuleError>,
) -> Result<Option<Bounds>, Memory>
    ensures { Follows (rule.bounds_by at first last) (S.state scope.old) errors.old (S.state scope.new) errors.new result }
{
    match (first, last) {
        (None, _) => Ok(None),
        (Some(ConstantValue::Ordinal(_, _)), None) => Ok(None),
        (Some(ConstantValue::Text(_)), None) => Ok(None),
        (Some(ConstantValue::Ordinal(a, low)), Some(ConstantValue::Ordinal(b, high))) => {
            if !same(&a, &b) {
                report(317, at, errors)?;
                return Ok(None);
            }
            if high < low {
                report(316, at, errors)?;
                return Ok(None);
            }
            Ok(Some(Bounds { host: a, low, high }))
        }
        (Some(ConstantValue::Ordinal(_, _)), Some(ConstantValue::Text(_))) => {
            report(317, at, errors)?;
            Ok(None)
        }
        (Some(ConstantValue::Text(_)), Some(ConstantValue::Ordinal(_, _))) => {
            report(317, at, errors)?;
            Ok(None)
        }
        (Some(ConstantValue::Text(_)), Some(ConstantValue::Text(_))) => {
            report(317, at, errors)?;
            Ok(None)
        }
    }
}

// The values of a subrange.
fn bounds<S: Scope>(
    alloc: Global,
    path: &Path,
    first: &Constant,
    last: &Constant,
    scope: &mut S,
    known: &mut Known,
) -> Result<Option<Bounds>, Memory>
    ensures { Follows (rule.looking path.now (rule.bounds first.now last.now)) (S.state scope.old) (known_of known.old) (S.state scope.new) (known_of known.new) result }
{
    let low = constant(alloc, path, &known.names, first, scope, &mut known.errors)?;
    let high = constant(alloc, path, &known.names, last, scope, &mut known.errors)?;
    bounds_by(last.first_token(), low, high, scope, &mut known.errors)
}

/// A new type of the block, with this shape, whose denoter's first token has this ordinal.
pub(crate) fn new_type<S: Scope>(
    path: &Path,
    at: u32,
    shape: Shape,
    scope: &mut S,
    known: &mut Known,
) -> Result<Option<TypeId>, Memory>
    ensures { Follows (rule.new_type path.now at shape) (S.state scope.old) (known_of known.old) (S.state scope.new) (known_of known.new) result }
{
    let id = TypeId::Own(path.copy()?, at);
    known.shapes.push(Shaped { at, shape })?;
    Ok(Some(id))
}

// The subrange type with these values.
fn new_range<S: Scope>(
    path: &Path,
    at: u32,
    values: Option<Bounds>,
    scope: &mut S,
    known: &mut Known,
) -> Result<Option<TypeId>, Memory>
    ensures { Follows (rule.new_range path.now at values) (S.state scope.old) (known_of known.old) (S.state scope.new) (known_of known.new) result }
{
    match values {
        Some(values) => new_type(path, at, Shape::Range(values), scope, known),
        None => Ok(None),
    }
}

/// A subrange type (ISO 7185, 6.4.2.4).
pub(crate) fn subrange<S: Scope>(
    alloc: Global,
    path: &Path,
    first: &Constant,
    last: &Constant,
    scope: &mut S,
    known: &mut Known,
) -> Result<Option<TypeId>, Memory>
    ensures { Follows (rule.looking path.now (rule.bounds first.now last.now) >>=ʳ rule.new_range path.now (first_of_constant first.now)) (S.state scope.old) (known_of known.old) (S.state scope.new) (known_of known.new) result }
{
    let values = bounds(alloc, path, first, last, scope, known)?;
    new_range(path, first.first_token(), values, scope, known)
}

/// Fills in what a name declares, where its first defining point has this ordinal.
pub(crate) fn fill<S: Scope>(
    name: &Name,
    at: u32,
    of: Decl,
    scope: &mut S,
    known: &mut Known,
) -> Result<(), Memory>
    ensures { Follows (rule.fill name.now at of) (S.state scope.old) (known_of known.old) (S.state scope.new) (known_of known.new) result }
{
    known.names.set(name, at, of);
    Ok(())
}
