// Variables and their parts (ISO 7185, 6.5).
ghost use Rattle.std.specs.Prelude.{◌≡◌, IfOk, None, Some, bytes_eq, option_map};
ghost use Rattle.std.specs.List.{list_any};
ghost use Rattle.mp_tables.specs.declared.declarations.Decl.TheVariants as decl;
ghost use Rattle.mp_tables.specs.Reports.{Follows, FollowsAs};
ghost use Rattle.mp_tables.specs.declared.types.Shape.TheVariants as shape;
ghost use Rattle.mp_tables.specs.PlainTypedExpressions.{plain_typed_expr, with_selector};
ghost use Rattle.mp_tables.specs.Standing.{ShapeStands, TypeIfStands};
ghost use Rattle.mp_tables.specs.Names as names;
ghost use Rattle.mp_tables.specs.Variables as rule;
ghost use Rattle.mp_ast.specs.Blocks as block;
ghost use Rattle.mp_expr_rules.specs.Regions.{TypedIfStands, UseStands, field_of, region_of, use_of};
ghost use Rattle.mp_expr_rules.specs.Judged.{AccessedIfStands, accessed_of, component_step, entire_of, operand_of, step_of};

use crate::fields::field_at;
use crate::judged::{Accessed, Entire, Operand, Step};
use crate::names::{field_named, report, report_if, typed, typed_if};
use crate::region::{Field, Region, Use};
use mp_ast::Identifier;
use mp_base::{Memory, Name, Path};
use mp_scope::Scope;
use mp_tables::{
    ArrayShape, Bounds, Component, Decl, FormalKind, Located, Parameter, RecordShape, Required,
    Root, RuleError, Shape, Slot, Tagging, TypeId, Typed, TypedAccess, TypedExpr, TypedSelector,
    Variable,
};
use mp_types::{ordinal, same};
use sqlite_items::{Items, at as item_at};
use std::alloc::Global;

// ---- from a variable to a part of it

// No step, where what it is taken from has an error.
fn no_step() -> Step
    ensures { step_of result ≡ rule.no_step }
{
    Step {
        selector: None,
        typed: None,
        guarded: false,
        tagging: None,
    }
}

// An error, and no step.
fn failed<S: Scope>(
    code: u16,
    at: u32,
    scope: &mut S,
    errors: &mut Items<RuleError>,
) -> Result<Step, Memory>
    ensures { FollowsAs step_of (rule.failed code at) (S.state scope.old) errors.old (S.state scope.new) errors.new result }
{
    report(code, at, errors)?;
    Ok(no_step())
}

// Whether an index has the host of an array's index, as far as it is known.
fn index_fits(i: &Option<Typed>, index: &Option<Bounds>) -> bool
    ensures { result ≡ rule.index_fits i.now index.now }
{
    match (i, index) {
        (Some(i), Some(bounds)) => match ordinal(i) {
            Some(values) => same(values.host, &bounds.host),
            None => false,
        },
        (Some(_), None) => true,
        (None, _) => true,
    }
}

// The step to a component.
fn index_selector(a: &ArrayShape, index: TypedExpr) -> TypedSelector<TypedExpr>
    ensures { (λ more. with_selector plain_typed_expr result more) ≡ rule.index_node (plain_typed_expr index) a.now.index a.now.size }
{
    let (low, high) = match &a.index {
        Some(bounds) => (bounds.low, bounds.high),
        None => (0, 0),
    };
    TypedSelector::Index(Component {
        index,
        low,
        high,
        size: a.size,
    })
}

// The step to a component, by the tree of the index.
fn component_step<S: Scope>(
    alloc: Global,
    a: &ArrayShape,
    index: TypedExpr,
    scope: &mut S,
    errors: &mut Items<RuleError>,
) -> Result<Step, Memory>
    requires { TypeIfStands (S.state scope.old).stands a.now.component }
    ensures follows { FollowsAs step_of (component_step a.now (plain_typed_expr index)) (S.state scope.old) errors.old (S.state scope.new) errors.new result }
    ensures stands { IfOk result (λ s. TypedIfStands (S.state scope.old).stands s.typed) }
{
    let t = typed_if(alloc, &a.component, scope, errors)?;
    Ok(Step {
        selector: Some(index_selector(a, index)),
        typed: t,
        guarded: a.packed,
        tagging: None,
    })
}

// The component that an index of this type selects.
fn component<S: Scope>(
    alloc: Global,
    a: &ArrayShape,
    first: u32,
    of: &Option<Typed>,
    index: TypedExpr,
    scope: &mut S,
    errors: &mut Items<RuleError>,
) -> Result<Step, Memory>
    requires { TypeIfStands (S.state scope.old).stands a.now.component }
    ensures follows { FollowsAs step_of (rule.component a.now first (rule.computed of.now (plain_typed_expr index))) (S.state scope.old) errors.old (S.state scope.new) errors.new result }
    ensures stands { IfOk result (λ s. TypedIfStands (S.state scope.old).stands s.typed) }
{
    if index_fits(of, &a.index) {
        return component_step(alloc, a, index, scope, errors);
    }
    report(339, first, errors)?;
    component_step(alloc, a, index, scope, errors)
}

/// The step that an index takes from a variable of this type (ISO 7185, 6.5.3.2). `at` is the ordinal of `[` or `,`, and
/// `first` that of the index.
pub fn index_step<S: Scope>(
    alloc: Global,
    at: u32,
    first: u32,
    i: Operand,
    t: &Option<Typed>,
    scope: &mut S,
    errors: &mut Items<RuleError>,
) -> Result<Step, Memory>
    requires { TypedIfStands (S.state scope.old).stands t.now }
    ensures follows { FollowsAs step_of (rule.index_step at first (operand_of i) t.now) (S.state scope.old) errors.old (S.state scope.new) errors.new result }
    ensures stands { IfOk result (λ s. TypedIfStands (S.state scope.old).stands s.typed) }
{
    let Operand { typed: of, node } = i;
    let Some(t) = t else {
        return Ok(no_step());
    };
    match &t.shape {
        Shape::Arr(a) => component(alloc, a, first, &of, node, scope, errors),
        Shape::Range(_) => failed(335, at, scope, errors),
        Shape::Names(_) => failed(335, at, scope, errors),
        Shape::Rec(_) => failed(335, at, scope, errors),
        Shape::SetOf(_, _) => failed(335, at, scope, errors),
        Shape::Ptr(_) => failed(335, at, scope, errors),
        Shape::Text => failed(335, at, scope, errors),
        Shape::Str(_) => failed(335, at, scope, errors),
    }
}

// What a slot selects, where it is a tag field.
fn tagging_of(of: &RecordShape, slot: &Slot) -> Result<Option<Tagging>, Memory>
    ensures { IfOk result (λ t. t ≡ rule.tagging_of of.now slot.now) }
{
    let Some(number) = slot.tags else {
        return Ok(None);
    };
    match item_at(of.parts.as_slice(), number as usize) {
        Some(part) => Ok(Some(Tagging {
            variants: part.variants.copy()?,
            slots: part.slots,
            cells: part.cells,
        })),
        None => Ok(None),
    }
}

// Whether a field is one of a packed record, or a tag field.
fn is_guarded(name: &Name, field: Field<'_>) -> bool
    ensures { result ≡ rule.is_guarded (field_of name.now field.entry) }
{
    field.of.packed || field.slot.tags.is_some()
}

// The step to a field.
fn selected_field<S: Scope>(
    alloc: Global,
    name: &Name,
    field: Field<'_>,
    scope: &mut S,
    errors: &mut Items<RuleError>,
) -> Result<Step, Memory>
    requires { TypeIfStands (S.state scope.old).stands field.slot.now.of }
    ensures follows { FollowsAs step_of (rule.selected_field (field_of name.now field.entry)) (S.state scope.old) errors.old (S.state scope.new) errors.new result }
    ensures stands { IfOk result (λ s. TypedIfStands (S.state scope.old).stands s.typed) }
{
    let t = typed_if(alloc, &field.slot.of, scope, errors)?;
    Ok(Step {
        selector: Some(TypedSelector::Field(field_at(alloc, name, field)?)),
        typed: t,
        guarded: is_guarded(name, field),
        tagging: tagging_of(field.of, field.slot)?,
    })
}

// The step to the field of this name of a record.
fn record_step<S: Scope>(
    alloc: Global,
    x: &Identifier,
    of: &RecordShape,
    scope: &mut S,
    errors: &mut Items<RuleError>,
) -> Result<Step, Memory>
    requires { ShapeStands (S.state scope.old).stands (shape.Rec of.now) }
    ensures follows { FollowsAs step_of (rule.field_of x.now.at (names.field_named x.now.name of.now)) (S.state scope.old) errors.old (S.state scope.new) errors.new result }
    ensures stands { IfOk result (λ s. TypedIfStands (S.state scope.old).stands s.typed) }
{
    match field_named(&x.name, of) {
        Some(field) => selected_field(alloc, &x.name, field, scope, errors),
        None => failed(338, x.at, scope, errors),
    }
}

/// The step that a field's name takes from a variable of this type (ISO 7185, 6.5.3.3). `at` is the ordinal of `.`.
pub fn field_step<S: Scope>(
    alloc: Global,
    at: u32,
    x: &Identifier,
    t: &Option<Typed>,
    scope: &mut S,
    errors: &mut Items<RuleError>,
) -> Result<Step, Memory>
    requires { TypedIfStands (S.state scope.old).stands t.now }
    ensures follows { FollowsAs step_of (rule.field_step at x.now t.now) (S.state scope.old) errors.old (S.state scope.new) errors.new result }
    ensures stands { IfOk result (λ s. TypedIfStands (S.state scope.old).stands s.typed) }
{
    let Some(t) = t else {
        return Ok(no_step());
    };
    match &t.shape {
        Shape::Rec(of) => record_step(alloc, x, of, scope, errors),
        Shape::Range(_) => failed(336, at, scope, errors),
        Shape::Names(_) => failed(336, at, scope, errors),
        Shape::Arr(_) => failed(336, at, scope, errors),
        Shape::SetOf(_, _) => failed(336, at, scope, errors),
        Shape::Ptr(_) => failed(336, at, scope, errors),
        Shape::Text => failed(336, at, scope, errors),
        Shape::Str(_) => failed(336, at, scope, errors),
    }
}

// The step from a pointer to its object.
fn object_step<S: Scope>(
    alloc: Global,
    domain: &Option<TypeId>,
    scope: &mut S,
    errors: &mut Items<RuleError>,
) -> Result<Step, Memory>
    requires { TypeIfStands (S.state scope.old).stands domain.now }
    ensures follows { FollowsAs step_of (rule.follow_step 0 (Some (record { id = None; shape = shape.Ptr domain.now }))) (S.state scope.old) errors.old (S.state scope.new) errors.new result }
    ensures stands { IfOk result (λ s. TypedIfStands (S.state scope.old).stands s.typed) }
{
    let t = typed_if(alloc, domain, scope, errors)?;
    Ok(Step {
        selector: Some(TypedSelector::Follow),
        typed: t,
        guarded: false,
        tagging: None,
    })
}

// The step from a text file to its buffer.
fn buffer_step<S: Scope>(
    alloc: Global,
    scope: &mut S,
    errors: &mut Items<RuleError>,
) -> Result<Step, Memory>
    ensures follows { FollowsAs step_of (rule.follow_step 0 (Some (record { id = None; shape = shape.Text }))) (S.state scope.old) errors.old (S.state scope.new) errors.new result }
    ensures stands { IfOk result (λ s. TypedIfStands (S.state scope.old).stands s.typed) }
{
    let t = typed(alloc, &TypeId::Char, scope, errors)?;
    Ok(Step {
        selector: Some(TypedSelector::Buffer),
        typed: Some(t),
        guarded: false,
        tagging: None,
    })
}

/// The step from a pointer to its object, or from a file to its buffer (ISO 7185, 6.5.4, 6.5.5). `at` is the ordinal of
/// `^`.
pub fn follow_step<S: Scope>(
    alloc: Global,
    at: u32,
    t: &Option<Typed>,
    scope: &mut S,
    errors: &mut Items<RuleError>,
) -> Result<Step, Memory>
    requires { TypedIfStands (S.state scope.old).stands t.now }
    ensures follows { FollowsAs step_of (rule.follow_step at t.now) (S.state scope.old) errors.old (S.state scope.new) errors.new result }
    ensures stands { IfOk result (λ s. TypedIfStands (S.state scope.old).stands s.typed) }
{
    let Some(t) = t else {
        return Ok(no_step());
    };
    match &t.shape {
        Shape::Ptr(domain) => object_step(alloc, domain, scope, errors),
        Shape::Text => buffer_step(alloc, scope, errors),
        Shape::Range(_) => failed(337, at, scope, errors),
        Shape::Names(_) => failed(337, at, scope, errors),
        Shape::Arr(_) => failed(337, at, scope, errors),
        Shape::Rec(_) => failed(337, at, scope, errors),
        Shape::SetOf(_, _) => failed(337, at, scope, errors),
        Shape::Str(_) => failed(337, at, scope, errors),
    }
}

// ---- variables by their names

/// Where a variable stands, which the block with this path declares.
pub(crate) fn located(name: &Name, path: &Path, offset: u32) -> Result<Located, Memory>
    ensures { IfOk result (λ l. l ≡ rule.located name.now path.now offset) }
{
    let depth = path.steps().len();
    if depth > u32::MAX as usize {
        return Err(Memory);
    }
    Ok(Located {
        name: name.copy()?,
        depth: depth as u32,
        offset,
    })
}

// A variable that is declared, or a standard file.
fn declared_variable<S: Scope>(
    alloc: Global,
    root: Root,
    entire: Option<Entire>,
    id: &Option<TypeId>,
    scope: &mut S,
    errors: &mut Items<RuleError>,
) -> Result<Option<Accessed>, Memory>
    requires { TypeIfStands (S.state scope.old).stands id.now }
    ensures follows { FollowsAs (option_map accessed_of) (rule.declared_variable root (option_map entire_of entire) id.now) (S.state scope.old) errors.old (S.state scope.new) errors.new result }
    ensures stands { IfOk result (λ a. AccessedIfStands (S.state scope.old).stands a) }
{
    let t = typed_if(alloc, id, scope, errors)?;
    Ok(Some(Accessed {
        access: TypedAccess {
            root,
            selectors: Items::new(alloc),
        },
        typed: t,
        guarded: false,
        tagging: None,
        entire,
    }))
}

// A field of an open record.
fn open_variable<S: Scope>(
    alloc: Global,
    name: &Name,
    number: u32,
    field: Field<'_>,
    scope: &mut S,
    errors: &mut Items<RuleError>,
) -> Result<Option<Accessed>, Memory>
    requires { TypeIfStands (S.state scope.old).stands field.slot.now.of }
    ensures follows { FollowsAs (option_map accessed_of) (rule.open_variable number (field_of name.now field.entry)) (S.state scope.old) errors.old (S.state scope.new) errors.new result }
    ensures stands { IfOk result (λ a. AccessedIfStands (S.state scope.old).stands a) }
{
    let t = typed_if(alloc, &field.slot.of, scope, errors)?;
    let mut selectors = Items::new(alloc);
    selectors.push(TypedSelector::Field(field_at(alloc, name, field)?))?;
    Ok(Some(Accessed {
        access: TypedAccess {
            root: Root::Opened(number),
            selectors,
        },
        typed: t,
        guarded: is_guarded(name, field),
        tagging: tagging_of(field.of, field.slot)?,
        entire: None,
    }))
}

// What a variable declaration declares.
fn block_variable<S: Scope>(
    alloc: Global,
    name: &Name,
    path: &Path,
    v: &Variable,
    scope: &mut S,
    errors: &mut Items<RuleError>,
) -> Result<Option<Accessed>, Memory>
    requires { TypeIfStands (S.state scope.old).stands v.now.of }
    ensures follows { FollowsAs (option_map accessed_of) (rule.variable_use name.now (names.Declared (decl.Var path.now v.now))) (S.state scope.old) errors.old (S.state scope.new) errors.new result }
    ensures stands { IfOk result (λ a. AccessedIfStands (S.state scope.old).stands a) }
{
    let entire = Entire {
        name: name.copy()?,
        path: path.copy()?,
        control: v.control,
    };
    let root = Root::Own(located(name, path, v.offset)?);
    declared_variable(alloc, root, Some(entire), &v.of, scope, errors)
}

// What a value or variable parameter is in its block.
fn parameter_variable<S: Scope>(
    alloc: Global,
    name: &Name,
    path: &Path,
    p: &Parameter,
    scope: &mut S,
    errors: &mut Items<RuleError>,
) -> Result<Option<Accessed>, Memory>
    requires { TypeIfStands (S.state scope.old).stands p.now.of }
    ensures follows { FollowsAs (option_map accessed_of) (rule.variable_use name.now (names.Declared (decl.Param path.now p.now))) (S.state scope.old) errors.old (S.state scope.new) errors.new result }
    ensures stands { IfOk result (λ a. AccessedIfStands (S.state scope.old).stands a) }
{
    match p.kind {
        FormalKind::Value => {
            let root = Root::Own(located(name, path, p.offset)?);
            declared_variable(alloc, root, None, &p.of, scope, errors)
        }
        FormalKind::Variable => {
            let root = Root::Through(located(name, path, p.offset)?);
            declared_variable(alloc, root, None, &p.of, scope, errors)
        }
        FormalKind::Procedure => Ok(None),
        FormalKind::Function => Ok(None),
    }
}

// A required identifier as a variable: only the standard files are.
fn required_variable<S: Scope>(
    alloc: Global,
    name: &Name,
    required: Required,
    scope: &mut S,
    errors: &mut Items<RuleError>,
) -> Result<Option<Accessed>, Memory>
    ensures follows { FollowsAs (option_map accessed_of) (rule.variable_use name.now (names.Declared (decl.Required required))) (S.state scope.old) errors.old (S.state scope.new) errors.new result }
    ensures stands { IfOk result (λ a. AccessedIfStands (S.state scope.old).stands a) }
{
    match required {
        Required::Input => declared_variable(
            alloc,
            Root::Input,
            None,
            &Some(TypeId::Text),
            scope,
            errors,
        ),
        Required::Output => declared_variable(
            alloc,
            Root::Output,
            None,
            &Some(TypeId::Text),
            scope,
            errors,
        ),
        Required::Integer => Ok(None),
        Required::Boolean => Ok(None),
        Required::Char => Ok(None),
        Required::Text => Ok(None),
        Required::False => Ok(None),
        Required::True => Ok(None),
        Required::Maxint => Ok(None),
        Required::Real => Ok(None),
        Required::Abs => Ok(None),
        Required::Sqr => Ok(None),
        Required::Odd => Ok(None),
        Required::Ord => Ok(None),
        Required::Succ => Ok(None),
        Required::Pred => Ok(None),
        Required::Chr => Ok(None),
        Required::Eof => Ok(None),
        Required::Eoln => Ok(None),
        Required::Reset => Ok(None),
        Required::Rewrite => Ok(None),
        Required::Get => Ok(None),
        Required::Put => Ok(None),
        Required::Read => Ok(None),
        Required::Readln => Ok(None),
        Required::Write => Ok(None),
        Required::Writeln => Ok(None),
        Required::Page => Ok(None),
        Required::New => Ok(None),
        Required::Dispose => Ok(None),
        Required::Pack => Ok(None),
        Required::Unpack => Ok(None),
    }
}

/// The variable that a name is, if it is one (ISO 7185, 6.5.1).
pub fn variable_use<S: Scope>(
    alloc: Global,
    name: &Name,
    u: &Use<'_>,
    scope: &mut S,
    errors: &mut Items<RuleError>,
) -> Result<Option<Accessed>, Memory>
    requires { UseStands (S.state scope.old).stands (S.state scope.old).path_stands (use_of name.now u.now) }
    ensures follows { FollowsAs (option_map accessed_of) (rule.variable_use name.now (use_of name.now u.now)) (S.state scope.old) errors.old (S.state scope.new) errors.new result }
    ensures stands { IfOk result (λ a. AccessedIfStands (S.state scope.old).stands a) }
{
    match u {
        Use::OpenField(number, field) => open_variable(alloc, name, *number, *field, scope, errors),
        Use::Declared(Decl::Var(path, v)) => block_variable(alloc, name, path, v, scope, errors),
        Use::Declared(Decl::Param(path, p)) => {
            parameter_variable(alloc, name, path, p, scope, errors)
        }
        Use::Declared(Decl::Required(required)) => {
            required_variable(alloc, name, *required, scope, errors)
        }
        Use::Declared(Decl::Const(_, _)) => Ok(None),
        Use::Declared(Decl::Sort(_, _)) => Ok(None),
        Use::Declared(Decl::Proc(_, _)) => Ok(None),
        Use::Declared(Decl::Func(_, _, _)) => Ok(None),
        Use::Declared(Decl::Label(_, _)) => Ok(None),
    }
}

// ---- control variables (ISO 7185, 6.8.3.9)

// Whether two paths are those of one block.
fn same_path(a: &Path, b: &Path) -> bool
    ensures { result ≡ block.same_path a.now b.now }
{
    a == b
}

// Whether one of these names is this one.
fn is_controlled(controlled: &[Name], name: &Name) -> bool
    ensures { result ≡ list_any (bytes_eq name.now) controlled.now }
{
    controlled.iter().any(|n| *name == *n)
}

// Whether a variable may be threatened here.
fn is_threat(region: &Region, e: &Entire) -> bool
    ensures { result ≡ rule.is_threat (region_of region.now) (entire_of e.now) }
{
    if same_path(&e.path, &region.path) {
        is_controlled(region.controlled.as_slice(), &e.name)
    } else {
        e.control
    }
}

/// Whether a control variable is threatened, which is an error at this token.
pub fn threat<S: Scope>(
    region: &Region,
    at: u32,
    entire: &Option<Entire>,
    scope: &mut S,
    errors: &mut Items<RuleError>,
) -> Result<bool, Memory>
    ensures { Follows (rule.threat (region_of region.now) at (option_map entire_of entire.now)) (S.state scope.old) errors.old (S.state scope.new) errors.new result }
{
    let Some(e) = entire else {
        return Ok(false);
    };
    let threatened = is_threat(region, e);
    report_if(threatened, 347, at, scope, errors)?;
    Ok(threatened)
}
