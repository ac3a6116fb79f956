ghost use Rattle.std.specs.Prelude.{◌≡◌, IfOk, Some, option_map};
ghost use Rattle.mp_ast.specs.declared.leaves.Constant.TheVariants as constants;
ghost use Rattle.mp_tables.specs.Reports as reports;
ghost use Rattle.mp_tables.specs.Reports.{Follows};
ghost use Rattle.mp_tables.specs.Constants as rule;
ghost use Rattle.mp_tables.specs.Denoters as denoter;
ghost use Rattle.mp_decl.specs.Judged.{use_of};

use crate::names::{look, report};
use mp_ast::{CharacterString, Constant, Identifier, Number, Sign, SignKind};
use mp_base::{MAXINT, Memory, Path};
use mp_scope::Scope;
use mp_tables::{ConstantValue, Decl, Names, Required, RuleError, Shared, TypeId};
use sqlite_items::Items;
use std::alloc::Global;

// The value of a number. No text has one that is too great for the type; it would be a want of memory.
fn number_constant(number: &Number) -> Result<ConstantValue, Memory>
    ensures { IfOk result (λ value. value ≡ rule.integer_constant number.now.value) }
{
    if number.value > i64::MAX as u64 {
        return Err(Memory);
    }
    Ok(ConstantValue::Ordinal(TypeId::Integer, number.value as i64))
}

// The value of a character-string.
fn string_constant(alloc: Global, string: &CharacterString) -> Result<ConstantValue, Memory>
    ensures { IfOk result (λ value. value ≡ rule.string_constant string.now.characters) }
{
    match string.characters.get() {
        [character] => Ok(ConstantValue::Ordinal(TypeId::Char, *character as i64)),
        characters => {
            let items = Items::from_slice(alloc, characters)?;
            Ok(ConstantValue::Text(Shared::new(alloc, items)?))
        }
    }
}

// An integer behind a sign. No text has a number whose negation is out of range; it would be a want of memory.
fn with_sign(kind: SignKind, n: i64) -> Result<i64, Memory>
    ensures { IfOk result (λ value. value ≡ rule.with_sign kind n) }
{
    match kind {
        SignKind::Plus => Ok(n),
        SignKind::Minus => {
            if n == i64::MIN {
                return Err(Memory);
            }
            Ok(-n)
        }
    }
}

// A constant behind a sign that is no integer: an error at the sign.
fn refused<S: Scope>(
    sign: &Sign,
    scope: &mut S,
    errors: &mut Items<RuleError>,
) -> Result<Option<ConstantValue>, Memory>
    ensures { Follows (reports.refuse 322 sign.now.at) (S.state scope.old) errors.old (S.state scope.new) errors.new result }
{
    report(322, sign.at, errors)?;
    Ok(None)
}

// A constant behind its sign, where it has one.
fn signed<S: Scope>(
    sign: &Option<Sign>,
    value: Option<ConstantValue>,
    scope: &mut S,
    errors: &mut Items<RuleError>,
) -> Result<Option<ConstantValue>, Memory>
    ensures { Follows (rule.signed sign.now value) (S.state scope.old) errors.old (S.state scope.new) errors.new result }
{
    match (sign, value) {
        (None, value) => Ok(value),
        (Some(_), None) => Ok(None),
        (Some(sign), Some(ConstantValue::Ordinal(TypeId::Integer, n))) => {
            let n = with_sign(sign.kind, n)?;
            Ok(Some(ConstantValue::Ordinal(TypeId::Integer, n)))
        }
        (Some(sign), Some(ConstantValue::Ordinal(TypeId::Boolean, _))) => refused(
            sign, scope, errors,
        ),
        (Some(sign), Some(ConstantValue::Ordinal(TypeId::Char, _))) => refused(sign, scope, errors),
        (Some(sign), Some(ConstantValue::Ordinal(TypeId::Text, _))) => refused(sign, scope, errors),
        (Some(sign), Some(ConstantValue::Ordinal(TypeId::Own(_, _), _))) => refused(
            sign, scope, errors,
        ),
        (Some(sign), Some(ConstantValue::Text(_))) => refused(sign, scope, errors),
    }
}

// A name that is no constant: an error at the name.
fn no_constant<S: Scope>(
    at: u32,
    scope: &mut S,
    errors: &mut Items<RuleError>,
) -> Result<Option<ConstantValue>, Memory>
    ensures { Follows (reports.refuse 305 at) (S.state scope.old) errors.old (S.state scope.new) errors.new result }
{
    report(305, at, errors)?;
    Ok(None)
}

// The value of a constant that is named, by what the name is.
fn constant_use<S: Scope>(
    at: u32,
    of: Option<Decl>,
    scope: &mut S,
    errors: &mut Items<RuleError>,
) -> Result<Option<ConstantValue>, Memory>
    ensures { Follows (rule.constant_use at (use_of of)) (S.state scope.old) errors.old (S.state scope.new) errors.new result }
{
    match of {
        None => Ok(None),
        Some(Decl::Const(_, value)) => Ok(value),
        Some(Decl::Required(Required::False)) => Ok(Some(ConstantValue::Ordinal(
            TypeId::Boolean,
            0,
        ))),
        Some(Decl::Required(Required::True)) => Ok(Some(ConstantValue::Ordinal(
            TypeId::Boolean,
            1,
        ))),
        Some(Decl::Required(Required::Maxint)) => Ok(Some(ConstantValue::Ordinal(
            TypeId::Integer,
            MAXINT as i64,
        ))),
        Some(Decl::Required(_)) => no_constant(at, scope, errors),
        Some(Decl::Sort(_, _)) => no_constant(at, scope, errors),
        Some(Decl::Var(_, _)) => no_constant(at, scope, errors),
        Some(Decl::Param(_, _)) => no_constant(at, scope, errors),
        Some(Decl::Proc(_, _)) => no_constant(at, scope, errors),
        Some(Decl::Func(_, _, _)) => no_constant(at, scope, errors),
        Some(Decl::Label(_, _)) => no_constant(at, scope, errors),
    }
}

// A constant's name, behind its sign where it has one.
fn named<S: Scope>(
    path: &Path,
    names: &Names,
    sign: &Option<Sign>,
    x: &Identifier,
    scope: &mut S,
    errors: &mut Items<RuleError>,
) -> Result<Option<ConstantValue>, Memory>
    ensures { Follows (rule.constant (denoter.look path.now names.now) (constants.Name sign.now x.now)) (S.state scope.old) errors.old (S.state scope.new) errors.new result }
{
    let of = look(path, names, x, scope, errors)?;
    let value = constant_use(x.at, of, scope, errors)?;
    signed(sign, value, scope, errors)
}

/// The value of a constant, where it is not missing (ISO 7185, 6.3). What the names declare that the block itself defines
/// is known; only what it does not declare is asked.
pub fn constant<S: Scope>(
    alloc: Global,
    path: &Path,
    names: &Names,
    c: &Constant,
    scope: &mut S,
    errors: &mut Items<RuleError>,
) -> Result<Option<ConstantValue>, Memory>
    ensures { Follows (rule.constant (denoter.look path.now names.now) c.now) (S.state scope.old) errors.old (S.state scope.new) errors.new result }
{
    match c {
        Constant::Number(sign, number) => {
            let value = number_constant(number)?;
            signed(sign, Some(value), scope, errors)
        }
        Constant::Name(sign, x) => named(path, names, sign, x, scope, errors),
        Constant::Text(string) => Ok(Some(string_constant(alloc, string)?)),
    }
}
