// Enumerations (ISO 7185, 6.4.2.3).
ghost use Rattle.std.specs.Prelude.{◌≡◌, IfOk, Some, map, pos};
ghost use Rattle.mp_tables.specs.declared.declarations.ConstantValue.TheVariants as values;
ghost use Rattle.mp_tables.specs.declared.declarations.Decl.TheVariants as decl;
ghost use Rattle.mp_tables.specs.declared.types.TypeId.TheVariants as type;
ghost use Rattle.mp_tables.specs.Reports.{Follows};
ghost use Rattle.mp_tables.specs.Denoters as rule;
ghost use Rattle.mp_decl.specs.Judged.{known_of};

use crate::known::Known;
use crate::simple::{fill, new_type};
use mp_ast::Identifier;
use mp_base::{Memory, Name, Path};
use mp_scope::Scope;
use mp_tables::{ConstantValue, Decl, Shape, Shared, TypeId};
use sqlite_items::Items;
use std::alloc::Global;

// The value with this number. No text has an enumeration of so many constants that it is out of range; it would be a want
// of memory.
fn value_numbered(number: usize) -> Result<i64, Memory>
    ensures { IfOk result (λ value. value ≡ pos number) }
{
    if number > i64::MAX as usize {
        return Err(Memory);
    }
    Ok(number as i64)
}

// What the constant with this number declares, of the enumeration whose denoter has this ordinal.
fn constant_numbered(path: &Path, at: u32, number: usize) -> Result<Decl, Memory>
    ensures { IfOk result (λ of. of ≡ decl.Const path.now (Some (values.Ordinal (type.Own path.now at) (pos number)))) }
{
    let value = ConstantValue::Ordinal(TypeId::Own(path.copy()?, at), value_numbered(number)?);
    Ok(Decl::Const(path.copy()?, Some(value)))
}

// The constant with this number of the enumeration whose denoter has this ordinal.
fn fill_constant<S: Scope>(
    path: &Path,
    at: u32,
    number: usize,
    x: &Identifier,
    scope: &mut S,
    known: &mut Known,
) -> Result<(), Memory>
    ensures { Follows (rule.fill x.now.name x.now.at (decl.Const path.now (Some (values.Ordinal (type.Own path.now at) (pos number))))) (S.state scope.old) (known_of known.old) (S.state scope.new) (known_of known.new) result }
{
    let of = constant_numbered(path, at, number)?;
    fill(&x.name, x.at, of, scope, known)
}

// The constants of an enumeration, which number its values from 0.
fn fill_constants<S: Scope>(
    path: &Path,
    at: u32,
    constants: &[Identifier],
    scope: &mut S,
    known: &mut Known,
) -> Result<(), Memory>
    ensures { Follows (rule.fill_constants path.now (type.Own path.now at) 0 constants.now) (S.state scope.old) (known_of known.old) (S.state scope.new) (known_of known.new) result }
{
    let mut number = 0;
    'constants: while number < constants.len() {
        fill_constant(path, at, number, &constants[number], scope, known)?;
        number += 1;
    }
    Ok(())
}

// The names of these constants, in order.
fn names_of(alloc: Global, constants: &[Identifier]) -> Result<Shared<Name>, Memory>
    ensures { IfOk result (λ names. names ≡ map (λ x. x.name) constants.now) }
{
    let mut names = Items::new(alloc);
    'constants: for x in constants {
        names.push(x.name.copy()?)?;
    }
    Shared::new(alloc, names)
}

/// An enumerated type, whose denoter has this ordinal, and its constants.
pub(crate) fn enumeration<S: Scope>(
    alloc: Global,
    path: &Path,
    at: u32,
    constants: &[Identifier],
    scope: &mut S,
    known: &mut Known,
) -> Result<Option<TypeId>, Memory>
    ensures { Follows (rule.enumeration path.now at constants.now) (S.state scope.old) (known_of known.old) (S.state scope.new) (known_of known.new) result }
{
    let names = names_of(alloc, constants)?;
    fill_constants(path, at, constants, scope, known)?;
    new_type(path, at, Shape::Names(names), scope, known)
}
