ghost use Rattle.std.specs.Prelude.{◌≡◌, ◌++◌, ◌∷◌, [], OnOk, IfOk, Some, map, option_map};
ghost use Rattle.mp_tables.specs.Reports as reports;
ghost use Rattle.mp_tables.specs.Reports.{Follows, FollowsAs};
ghost use Rattle.mp_tables.specs.Standing.{SeenStands, TypeStands, TypeIfStands};
ghost use Rattle.mp_tables.specs.RequiredNames as required;
ghost use Rattle.mp_tables.specs.Sizes as size;
ghost use Rattle.mp_tables.specs.Names as names;
ghost use Rattle.mp_expr_rules.specs.Regions.{RegionStands, TypedStands, TypedIfStands, UseIfStands, field_of, open_of, opened_of, region_of, use_of};

use crate::region::{Field, OpenField, Opened, Region, Use};
use mp_ast::Identifier;
use mp_base::{Memory, Name, Path, Place};
use mp_scope::Scope;
use mp_tables::{Decl, RecordShape, Required, RuleError, Seen, Shape, Slot, TypeId, Typed};
use mp_types::required_shape;
use sqlite_items::Items;
use std::alloc::Global;

// Reports an error at the token of this ordinal.
pub(crate) fn report(code: u16, at: u32, errors: &mut Items<RuleError>) -> Result<(), Memory>
    ensures { OnOk result (errors.new ≡ errors.old ++ record { at = at; code = code } ∷ []) }
{
    errors.push(RuleError { at, code })?;
    Ok(())
}

// The type with this identity, which stands. The shapes of the required types are known.
pub fn typed<S: Scope>(
    alloc: Global,
    id: &TypeId,
    scope: &mut S,
    errors: &mut Items<RuleError>,
) -> Result<Typed, Memory>
    requires { TypeStands (S.state scope.old).stands id.now }
    ensures follows { Follows (names.typed id.now) (S.state scope.old) errors.old (S.state scope.new) errors.new result }
    ensures stands { IfOk result (λ t. TypedStands (S.state scope.old).stands t) }
{
    match id {
        TypeId::Own(path, at) => {
            let shape = scope.shape(id)?;
            Ok(Typed {
                id: Some(TypeId::Own(path.copy()?, *at)),
                shape,
            })
        }
        TypeId::Integer => Ok(Typed {
            id: Some(TypeId::Integer),
            shape: shape_of_required(alloc, id)?,
        }),
        TypeId::Boolean => Ok(Typed {
            id: Some(TypeId::Boolean),
            shape: shape_of_required(alloc, id)?,
        }),
        TypeId::Char => Ok(Typed {
            id: Some(TypeId::Char),
            shape: shape_of_required(alloc, id)?,
        }),
        TypeId::Text => Ok(Typed {
            id: Some(TypeId::Text),
            shape: shape_of_required(alloc, id)?,
        }),
    }
}

// The shape of a required type.
fn shape_of_required(alloc: Global, id: &TypeId) -> Result<Shape, Memory>
    ensures { IfOk result (λ s. required.required_shape id.now ≡ Some s) }
{
    match required_shape(alloc, id)? {
        Some(shape) => Ok(shape),
        None => Err(Memory),
    }
}

// The type with this identity, where there is one.
pub fn typed_if<S: Scope>(
    alloc: Global,
    id: &Option<TypeId>,
    scope: &mut S,
    errors: &mut Items<RuleError>,
) -> Result<Option<Typed>, Memory>
    requires { TypeIfStands (S.state scope.old).stands id.now }
    ensures follows { Follows (names.typed_if id.now) (S.state scope.old) errors.old (S.state scope.new) errors.new result }
    ensures stands { IfOk result (λ t. TypedIfStands (S.state scope.old).stands t) }
{
    match id {
        Some(id) => Ok(Some(typed(alloc, id, scope, errors)?)),
        None => Ok(None),
    }
}

// Reports an error where this is so.
pub(crate) fn report_if<S: Scope>(
    bad: bool,
    code: u16,
    at: u32,
    scope: &mut S,
    errors: &mut Items<RuleError>,
) -> Result<(), Memory>
    ensures { Follows (reports.report_if bad code at) (S.state scope.old) errors.old (S.state scope.new) errors.new result }
{
    if bad {
        report(code, at, errors)?;
    }
    Ok(())
}

// What a used name is, by what it is at its place.
fn declared_use<S: Scope>(
    at: u32,
    seen: Seen,
    scope: &mut S,
    errors: &mut Items<RuleError>,
) -> Result<Option<Decl>, Memory>
    requires { SeenStands (S.state scope.old).stands (S.state scope.old).path_stands seen }
    ensures follows { FollowsAs (option_map names.Declared) (names.declared_use at seen) (S.state scope.old) errors.old (S.state scope.new) errors.new result }
    ensures stands { IfOk result (λ d. UseIfStands (S.state scope.old).stands (S.state scope.old).path_stands (option_map names.Declared d)) }
{
    match seen {
        Seen::Is(Decl::Required(Required::Real)) => {
            report(303, at, errors)?;
            Ok(None)
        }
        Seen::Is(Decl::Required(required)) => Ok(Some(Decl::Required(required))),
        Seen::Is(Decl::Const(path, value)) => Ok(Some(Decl::Const(path, value))),
        Seen::Is(Decl::Sort(path, of)) => Ok(Some(Decl::Sort(path, of))),
        Seen::Is(Decl::Var(path, variable)) => Ok(Some(Decl::Var(path, variable))),
        Seen::Is(Decl::Param(path, parameter)) => Ok(Some(Decl::Param(path, parameter))),
        Seen::Is(Decl::Proc(path, routine)) => Ok(Some(Decl::Proc(path, routine))),
        Seen::Is(Decl::Func(path, routine, offset)) => Ok(Some(Decl::Func(path, routine, offset))),
        Seen::Is(Decl::Label(path, standing)) => Ok(Some(Decl::Label(path, standing))),
        Seen::NotYet => {
            report(302, at, errors)?;
            Ok(None)
        }
        Seen::Absent => {
            report(301, at, errors)?;
            Ok(None)
        }
    }
}

// What a used name is that no open record has.
fn looked_up<S: Scope>(
    path: &Path,
    x: &Identifier,
    scope: &mut S,
    errors: &mut Items<RuleError>,
) -> Result<Option<Decl>, Memory>
    ensures follows { FollowsAs (option_map names.Declared) (names.looked_up path.now x.now.at x.now.name x.now.at) (S.state scope.old) errors.old (S.state scope.new) errors.new result }
    ensures stands { IfOk result (λ d. UseIfStands (S.state scope.old).stands (S.state scope.old).path_stands (option_map names.Declared d)) }
{
    let place = Place {
        path: path.copy()?,
        ordinal: x.at,
    };
    let seen = scope.find(&x.name, &place)?;
    declared_use(x.at, seen, scope, errors)
}

// Whether a slot is the field of this name.
fn has_name(slot: &Slot, name: &Name) -> bool
    ensures { result ≡ size.has_name name.now slot.now.name }
{
    match &slot.name {
        Some(own) => *name == *own,
        None => false,
    }
}

// The field of this name of a record.
pub(crate) fn field_named<'a>(name: &Name, of: &'a RecordShape) -> Option<Field<'a>>
    ensures { option_map (field_of name.now) result ≡ names.field_named name.now of.now }
{
    let slots = of.slots.as_slice();
    let mut number = 0;
    'slots: while number < slots.len() {
        let slot = &slots[number];
        if has_name(slot, name) {
            return Some(Field { of, number, slot });
        }
        number += 1;
    }
    None
}

// The field of this name of a record that may be missing.
fn open_field<'a>(opened: &'a Opened, name: &Name) -> Option<OpenField<'a>>
    ensures { option_map (open_of name.now) result ≡ names.open_field opened.now.number opened.now.fields name.now }
{
    match &opened.fields {
        Some(of) => match field_named(name, of) {
            Some(field) => Some(OpenField {
                number: opened.number,
                field,
            }),
            None => None,
        },
        None => None,
    }
}

// The field of this name of the innermost open record that has one.
fn field_in<'a>(opened: &'a [Opened], name: &Name) -> Option<OpenField<'a>>
    ensures { option_map (open_of name.now) result ≡ names.field_in (map opened_of opened.now) name.now }
{
    'records: for o in opened {
        if let Some(field) = open_field(o, name) {
            return Some(field);
        }
    }
    None
}

/// What a name is in a statement.

pub fn used<'a, S: Scope>(
    region: &'a Region,
    x: &Identifier,
    scope: &mut S,
    errors: &mut Items<RuleError>,
) -> Result<Option<Use<'a>>, Memory>
    requires { RegionStands (S.state scope.old).stands region.now }
    ensures follows { FollowsAs (option_map (use_of x.now.name)) (names.used (region_of region.now) x.now) (S.state scope.old) errors.old (S.state scope.new) errors.new result }
    ensures stands { IfOk result (λ u. UseIfStands (S.state scope.old).stands (S.state scope.old).path_stands (option_map (use_of x.now.name) u)) }
{
    if let Some(field) = field_in(region.opened.as_slice(), &x.name) {
        return Ok(Some(Use::OpenField(field.number, field.field)));
    }
    match looked_up(&region.path, x, scope, errors)? {
        Some(decl) => Ok(Some(Use::Declared(decl))),
        None => Ok(None),
    }
}
