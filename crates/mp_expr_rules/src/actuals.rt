// Actual parameters beside formal ones (ISO 7185, 6.6.3.2 to 6.6.3.5). They have been judged already.
ghost use Rattle.std.specs.Prelude.{◌≡◌, ◌&&◌, [], None, Some};
ghost use Rattle.std.specs.Option.{option_copied};
ghost use Rattle.mp_tables.specs.PlainTypedExpressions as tree;
ghost use Rattle.mp_tables.specs.PlainTypedExpressions.{PlainTypedActuals, plain_typed_expr, actuals_of, with_actual};
ghost use Rattle.mp_tables.specs.Reports.{Follows, FollowsAs};
ghost use Rattle.mp_tables.specs.Standing.{TypeIfStands};
ghost use Rattle.mp_tables.specs.TypeRelations as relation;
ghost use Rattle.mp_tables.specs.Variables as variable;
ghost use Rattle.mp_tables.specs.Calls as rule;
ghost use Rattle.mp_expr_rules.specs.Regions.{region_of};
ghost use Rattle.mp_expr_rules.specs.Judged.{accessed_of, expressed_of};
ghost use Rattle.mp_expr_rules.specs.Calling.{actual_of, added, given_of, parameter_of, value_check, variable_checks};

use crate::formals::FormalParameter;
use crate::judged::{Accessed, Expressed, Given};
use crate::names::{report_if, typed_if};
use crate::nodes::{call_node, wrong_node};
use crate::region::Region;
use crate::sorts::{check_if, sort_of};
use crate::variables::threat;
use mp_base::Memory;
use mp_scope::Scope;
use mp_tables::{
    Callee, Formal, FormalKind, Heading, RuleError, TypeId, Typed, TypedActual, TypedCall,
    TypedExpr,
};
use mp_types::{assignable, congruous, same};
use sqlite_items::Items;
use std::alloc::Global;

// Whether a value can be assigned to a parameter, as far as their types are known.
fn fits_parameter(value: Option<&Typed>, target: &Option<Typed>) -> bool
    ensures { result ≡ relation.unless_missing relation.assignable (option_copied value.entry) target.now }
{
    match (value, target) {
        (Some(value), Some(target)) => assignable(value, target),
        (Some(_), None) => true,
        (None, _) => true,
    }
}

// Whether a variable has the type of a parameter, as far as their types are known.
fn has_type(typed: &Option<Typed>, of: &Option<TypeId>) -> bool
    ensures { result ≡ relation.unless_missing relation.same (rule.has_identity typed.now) of.now }
{
    let Some(t) = typed else {
        return true;
    };
    match (&t.id, of) {
        (Some(id), Some(of)) => same(id, of),
        (Some(_), None) => true,
        (None, _) => true,
    }
}

// Whether two parameters are of one kind.
fn same_kind(a: FormalKind, b: FormalKind) -> bool
    ensures { result ≡ relation.same_kind a b }
{
    match (a, b) {
        (FormalKind::Value, FormalKind::Value) => true,
        (FormalKind::Variable, FormalKind::Variable) => true,
        (FormalKind::Procedure, FormalKind::Procedure) => true,
        (FormalKind::Function, FormalKind::Function) => true,
        _ => false,
    }
}

// Whether a heading has neither parameters nor, as far as it is known, a result.
fn is_without(formals: &[Formal], of: &Option<TypeId>) -> bool
    ensures { result ≡ (relation.congruous_lists formals.now [] && relation.unless_missing relation.same of.now None) }
{
    match formals {
        [] => match of {
            Some(_) => true,
            None => true,
        },
        [_first, _more @ ..] => false,
    }
}

// Whether a heading is congruous with that of a procedural parameter, whose heading may have no parameters and no result.
fn has_heading(heading: &Heading, own: &Option<Heading>) -> bool
    ensures { result ≡ relation.congruous heading.now (rule.heading_or_none own.now) }
{
    match own {
        Some(own) => congruous(heading, own),
        None => is_without(heading.formals.as_slice(), &heading.result),
    }
}

// Whether a procedure or function may be passed for a parameter.
fn is_congruous(f: &FormalParameter<'_>, g: &Given) -> bool
    ensures { result ≡ rule.is_congruous (parameter_of f.now) (given_of g.now) }
{
    same_kind(f.formal.kind, g.kind) && has_heading(&g.heading, &f.own)
}

// Whether a parameter is procedural or functional.
fn is_procedural(kind: FormalKind) -> bool
    ensures { result ≡ rule.is_procedural kind }
{
    match kind {
        FormalKind::Procedure => true,
        FormalKind::Function => true,
        FormalKind::Value => false,
        FormalKind::Variable => false,
    }
}

// The tree of the call of a function with a result of this type.
fn called_node(
    result_type: &Option<Typed>,
    callee: Option<Callee>,
    actuals: Items<TypedActual<TypedExpr>>,
) -> TypedExpr
    ensures { plain_typed_expr result ≡ rule.call_node result_type.now callee (actuals_of plain_typed_expr actuals) }
{
    match (result_type, callee) {
        (Some(t), Some(callee)) => call_node(sort_of(t), TypedCall { callee, actuals }),
        _ => wrong_node(),
    }
}

// ---- value parameters (ISO 7185, 6.6.3.2)

// The tree of an actual value parameter of this type.
fn value_node(value: Expressed, target: &Option<Typed>) -> TypedActual<TypedExpr>
    ensures { with_actual plain_typed_expr result ≡ tree.Value (expressed_of value).node (variable.check_if target.now) }
{
    let x = value.operand();
    TypedActual::Value(x.node, check_if(target))
}

// The type of a value parameter, for which the value is checked.
fn value_check<S: Scope>(
    alloc: Global,
    of: &Option<TypeId>,
    first: u32,
    value: Option<&Typed>,
    scope: &mut S,
    errors: &mut Items<RuleError>,
) -> Result<Option<Typed>, Memory>
    requires { TypeIfStands (S.state scope.old).stands of.now }
    ensures { Follows (value_check of.now first (option_copied value.entry)) (S.state scope.old) errors.old (S.state scope.new) errors.new result }
{
    let t = typed_if(alloc, of, scope, errors)?;
    report_if(!fits_parameter(value, &t), 334, first, scope, errors)?;
    Ok(t)
}

// ---- variable parameters (ISO 7185, 6.6.3.3)

// What is checked of a variable that is passed.
fn variable_checks<S: Scope>(
    region: &Region,
    of: &Option<TypeId>,
    first: u32,
    a: &Accessed,
    scope: &mut S,
    errors: &mut Items<RuleError>,
) -> Result<(), Memory>
    ensures { Follows (variable_checks (region_of region.now) of.now first (accessed_of a.now)) (S.state scope.old) errors.old (S.state scope.new) errors.new result }
{
    let threatened = threat(region, first, &a.entire, scope, errors)?;
    let fits = threatened || has_type(&a.typed, of);
    report_if(!fits, 342, first, scope, errors)?;
    report_if(a.guarded, 343, first, scope, errors)
}

// A variable that is passed.
fn passed_variable<S: Scope>(
    region: &Region,
    f: &FormalParameter<'_>,
    first: u32,
    a: Accessed,
    scope: &mut S,
    errors: &mut Items<RuleError>,
) -> Result<Option<TypedActual<TypedExpr>>, Memory>
    ensures { (more : PlainTypedActuals) → FollowsAs (added more) (rule.variable_actual (region_of region.now) (parameter_of f.now) (actual_of first (variable.loaded (accessed_of a)) None) more) (S.state scope.old) errors.old (S.state scope.new) errors.new result }
{
    variable_checks(region, &f.formal.of, first, &a, scope, errors)?;
    let Accessed { access, .. } = a;
    Ok(Some(TypedActual::Variable(access)))
}

// ---- procedural and functional parameters (ISO 7185, 6.6.3.4, 6.6.3.5)

// The tree of a procedure or function that is passed, where it has a block.
fn routine_node(callee: Option<Callee>) -> Option<TypedActual<TypedExpr>>
    ensures { (more : PlainTypedActuals) → added more result ≡ rule.routine_node callee more }
{
    match callee {
        Some(callee) => Some(TypedActual::Routine(callee)),
        None => None,
    }
}

// A procedure or function that is passed.
fn passed_routine<S: Scope>(
    f: &FormalParameter<'_>,
    first: u32,
    g: Given,
    scope: &mut S,
    errors: &mut Items<RuleError>,
) -> Result<Option<TypedActual<TypedExpr>>, Memory>
    ensures { (more : PlainTypedActuals) → FollowsAs (added more) (rule.routine_actual (parameter_of f.now) (actual_of first variable.wrong (Some (given_of g))) more) (S.state scope.old) errors.old (S.state scope.new) errors.new result }
{
    let fits = is_congruous(f, &g);
    report_if(!fits, 344, first, scope, errors)?;
    let Given { callee, .. } = g;
    Ok(routine_node(callee))
}
