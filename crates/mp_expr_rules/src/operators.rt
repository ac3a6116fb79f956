// Operators (ISO 7185, 6.7.2): which operands each takes, and the type of its result.
ghost use Rattle.std.specs.Prelude.{◌≡◌, ◌&&◌, IfOk, Some, is_some};
ghost use Rattle.std.specs.Option.{option_map};
ghost use Rattle.mp_tables.specs.declared.types.TypeId.TheVariants as type;
ghost use Rattle.mp_tables.specs.PlainTypedExpressions as tree;
ghost use Rattle.mp_tables.specs.PlainTypedExpressions.{plain_typed_expr};
ghost use Rattle.mp_tables.specs.Reports.{FollowsAs};
ghost use Rattle.mp_tables.specs.TypeRelations as relation;
ghost use Rattle.mp_tables.specs.Variables as variable;
ghost use Rattle.mp_tables.specs.Operators as rule;
ghost use Rattle.mp_types.specs.Values.{bounds_of, form_of};
ghost use Rattle.mp_expr_rules.specs.Judged.{operated_of, resulting_of, value_of};

use crate::judged::{Operated, Resulting, Value, computed, wrong};
use crate::names::report;
use crate::nodes::{compare_node, in_node, not_node, signed_node};
use mp_ast::{Operator, SignKind};
use mp_base::{MAXINT, Memory};
use mp_layout::cells;
use mp_scope::Scope;
use mp_tables::{
    Bounds, Comparison, RuleError, Shape, Sort, TypeId, Typed, TypedExpr, TypedOperator,
};
use mp_types::{
    StringForm, Values, compatible, has_host, ordinal, required_shape, same, string_form,
};
use sqlite_items::Items;
use std::alloc::Global;

// The type integer.
pub(crate) fn integer() -> Typed
    ensures { result ≡ rule.integer }
{
    Typed {
        id: Some(TypeId::Integer),
        shape: Shape::Range(Bounds {
            host: TypeId::Integer,
            low: -(MAXINT as i64),
            high: MAXINT as i64,
        }),
    }
}

// A required type.
pub(crate) fn of_required(alloc: Global, id: TypeId) -> Result<Typed, Memory>
    ensures { IfOk result (λ t. t ≡ rule.of_required id) }
{
    let shape = match required_shape(alloc, &id)? {
        Some(shape) => shape,
        None => Shape::Text,
    };
    Ok(Typed {
        id: Some(id),
        shape,
    })
}

// The type Boolean.
pub(crate) fn boolean(alloc: Global) -> Result<Typed, Memory>
    ensures { IfOk result (λ t. t ≡ rule.boolean) }
{
    of_required(alloc, TypeId::Boolean)
}

// What an operator between two values of a host type does, where both are.
fn over(
    host: &TypeId,
    result_type: Typed,
    operator: TypedOperator,
    a: &Typed,
    b: &Typed,
) -> Option<Operated>
    ensures { option_map operated_of result ≡ rule.over host.now result_type operator a.now b.now }
{
    if has_host(host, a) && has_host(host, b) {
        Some(Operated {
            operator,
            result: result_type,
        })
    } else {
        None
    }
}

// Of two compatible sets the one that is declared, and else the one with members.
fn set_of(a: &Typed, b: &Typed, base: &Option<Bounds>) -> Result<Typed, Memory>
    ensures { IfOk result (λ t. t ≡ rule.set_of a.now b.now base.now) }
{
    if a.id.is_some() {
        return a.copy();
    }
    if b.id.is_some() {
        return b.copy();
    }
    if base.is_some() { a.copy() } else { b.copy() }
}

// What an operator between two sets does, where both are and they are compatible.
fn over_sets(operator: TypedOperator, a: &Typed, b: &Typed) -> Result<Option<Operated>, Memory>
    ensures { IfOk result (λ r. option_map operated_of r ≡ rule.over_sets operator a.now b.now) }
{
    match (&a.shape, &b.shape) {
        (Shape::SetOf(_, base), Shape::SetOf(_, _)) => {
            if !compatible(a, b) {
                return Ok(None);
            }
            Ok(Some(Operated {
                operator,
                result: set_of(a, b, base)?,
            }))
        }
        _ => Ok(None),
    }
}

// What an operator between two integers does, or one between two sets.
fn over_both(
    of_integers: TypedOperator,
    of_sets: TypedOperator,
    a: &Typed,
    b: &Typed,
) -> Result<Option<Operated>, Memory>
    ensures { IfOk result (λ r. option_map operated_of r ≡ rule.either (rule.over type.Integer rule.integer of_integers a.now b.now) (rule.over_sets of_sets a.now b.now)) }
{
    match over(&TypeId::Integer, integer(), of_integers, a, b) {
        Some(operated) => Ok(Some(operated)),
        None => over_sets(of_sets, a, b),
    }
}

// What an operator does with two operands, where it takes them, and the type of the result.
fn operated(
    alloc: Global,
    operator: Operator,
    a: &Typed,
    b: &Typed,
) -> Result<Option<Operated>, Memory>
    ensures { IfOk result (λ r. option_map operated_of r ≡ rule.operated operator a.now b.now) }
{
    match operator {
        Operator::Add => over_both(TypedOperator::Add, TypedOperator::Union, a, b),
        Operator::Subtract => over_both(TypedOperator::Subtract, TypedOperator::Difference, a, b),
        Operator::Multiply => over_both(TypedOperator::Multiply, TypedOperator::Intersection, a, b),
        Operator::Div => Ok(over(&TypeId::Integer, integer(), TypedOperator::Div, a, b)),
        Operator::Mod => Ok(over(&TypeId::Integer, integer(), TypedOperator::Mod, a, b)),
        Operator::And => Ok(over(&TypeId::Boolean, boolean(alloc)?, TypedOperator::And, a, b)),
        Operator::Or => Ok(over(&TypeId::Boolean, boolean(alloc)?, TypedOperator::Or, a, b)),
        Operator::Equal => Ok(None),
        Operator::NotEqual => Ok(None),
        Operator::Less => Ok(None),
        Operator::LessOrEqual => Ok(None),
        Operator::Greater => Ok(None),
        Operator::GreaterOrEqual => Ok(None),
        Operator::In => Ok(None),
    }
}

/// What an operator makes of operands of these types, where it takes them (ISO 7185, 6.7.2.2 to 6.7.2.4). `at` is its
/// ordinal.
pub fn operation<S: Scope>(
    alloc: Global,
    at: u32,
    operator: Operator,
    left: &Option<Typed>,
    right: &Option<Typed>,
    scope: &mut S,
    errors: &mut Items<RuleError>,
) -> Result<Resulting, Memory>
    ensures { FollowsAs resulting_of (rule.operation at operator left.now right.now) (S.state scope.old) errors.old (S.state scope.new) errors.new result }
{
    let (Some(a), Some(b)) = (left, right) else {
        return Ok(Resulting {
            typed: None,
            operator: TypedOperator::Add,
        });
    };
    match operated(alloc, operator, a, b)? {
        Some(operated) => Ok(Resulting {
            typed: Some(operated.result),
            operator: operated.operator,
        }),
        None => {
            report(330, at, errors)?;
            Ok(Resulting {
                typed: None,
                operator: TypedOperator::Add,
            })
        }
    }
}

// ---- `not` (ISO 7185, 6.7.2.3)

// The value of an operand behind `not`.
fn negated_value(alloc: Global, node: TypedExpr) -> Result<Value, Memory>
    ensures { IfOk result (λ v. value_of v ≡ variable.computed (Some rule.boolean) (tree.Not (plain_typed_expr node))) }
{
    let node = not_node(alloc, node)?;
    let t = boolean(alloc)?;
    Ok(computed(Some(t), node))
}

/// An operand of this type behind `not` (ISO 7185, 6.7.2.3), whose ordinal is `at`.
pub fn negated<S: Scope>(
    alloc: Global,
    at: u32,
    of: &Option<Typed>,
    node: TypedExpr,
    scope: &mut S,
    errors: &mut Items<RuleError>,
) -> Result<Value, Memory>
    ensures { FollowsAs value_of (rule.negated at (variable.computed of.now (plain_typed_expr node))) (S.state scope.old) errors.old (S.state scope.new) errors.new result }
{
    let Some(t) = of else {
        return Ok(wrong());
    };
    if has_host(&TypeId::Boolean, t) {
        return negated_value(alloc, node);
    }
    report(330, at, errors)?;
    Ok(wrong())
}

// ---- signs (ISO 7185, 6.7.2.2)

// The value of a term behind a sign.
fn signed_value(alloc: Global, kind: SignKind, node: TypedExpr) -> Result<Value, Memory>
    ensures { IfOk result (λ v. value_of v ≡ variable.computed (Some rule.integer) (tree.Signed kind (plain_typed_expr node))) }
{
    let node = signed_node(alloc, kind, node)?;
    Ok(computed(Some(integer()), node))
}

// ---- relational operators (ISO 7185, 6.7.2.5)

// Whether two types are ordinal with one host.
fn share_host(a: &Typed, b: &Typed) -> bool
    ensures { result ≡ relation.both relation.same_host (relation.ordinal a.now) (relation.ordinal b.now) }
{
    match (ordinal(a), ordinal(b)) {
        (Some(a), Some(b)) => same(a.host, b.host),
        _ => false,
    }
}

// Whether two types are strings of one length, as far as it is known.
fn equal_length(a: StringForm, b: StringForm) -> bool
    ensures { result ≡ relation.equal_length (form_of a) (form_of b) }
{
    match (a, b) {
        (StringForm::NoString, _) => false,
        (_, StringForm::NoString) => false,
        (StringForm::OfLength(m), StringForm::OfLength(n)) => m == n,
        _ => true,
    }
}

// The sort of two values that all six relations compare.
fn ordered_sort(a: &Typed, b: &Typed) -> Option<Sort>
    ensures { result ≡ rule.ordered_sort a.now b.now }
{
    if share_host(a, b) {
        return Some(Sort::Ordinal);
    }
    if equal_length(string_form(&a.shape), string_form(&b.shape)) {
        return Some(Sort::Block(cells(&a.shape)));
    }
    None
}

// The sort of two sets that are compatible.
fn set_sort(a: &Typed, b: &Typed) -> Option<Sort>
    ensures { result ≡ rule.set_sort a.now b.now }
{
    match (&a.shape, &b.shape) {
        (Shape::SetOf(_, _), Shape::SetOf(_, _)) => {
            if compatible(a, b) {
                Some(Sort::Set)
            } else {
                None
            }
        }
        _ => None,
    }
}

// The sort of two pointers that are compatible.
fn pointer_sort(a: &Typed, b: &Typed) -> Option<Sort>
    ensures { result ≡ rule.pointer_sort a.now b.now }
{
    match (&a.shape, &b.shape) {
        (Shape::Ptr(_), Shape::Ptr(_)) => {
            if compatible(a, b) {
                Some(Sort::Pointer)
            } else {
                None
            }
        }
        _ => None,
    }
}

// The first of two sorts, or else the second.
fn or_sort(a: Option<Sort>, b: Option<Sort>) -> Option<Sort>
    ensures { result ≡ rule.or_sort a b }
{
    match a {
        Some(sort) => Some(sort),
        None => b,
    }
}

// The sort of the two values that a relation but `in` compares, where it takes them.
fn compared(comparison: Comparison, a: &Typed, b: &Typed) -> Option<Sort>
    ensures { result ≡ rule.compared comparison a.now b.now }
{
    let ordered = ordered_sort(a, b);
    match comparison {
        Comparison::Less => ordered,
        Comparison::Greater => ordered,
        Comparison::LessOrEqual => or_sort(ordered, set_sort(a, b)),
        Comparison::GreaterOrEqual => or_sort(ordered, set_sort(a, b)),
        Comparison::Equal => or_sort(ordered, or_sort(set_sort(a, b), pointer_sort(a, b))),
        Comparison::NotEqual => or_sort(ordered, or_sort(set_sort(a, b), pointer_sort(a, b))),
    }
}

// Whether an ordinal may have the host of a base, as far as it is known.
fn has_base_host(a: Option<Values<'_>>, base: &Option<Bounds>) -> bool
    ensures { result ≡ is_some (option_map bounds_of a.entry) && relation.unless_missing relation.same_host (option_map bounds_of a.entry) base.now }
{
    match (a, base) {
        (Some(a), Some(base)) => same(a.host, &base.host),
        (Some(_), None) => true,
        (None, _) => false,
    }
}

// Whether these are an ordinal and a set whose base has its host.
fn is_member(a: &Typed, b: &Typed) -> bool
    ensures { result ≡ rule.is_member a.now b.now }
{
    match &b.shape {
        Shape::SetOf(_, base) => has_base_host(ordinal(a), base),
        Shape::Range(_) => false,
        Shape::Names(_) => false,
        Shape::Arr(_) => false,
        Shape::Rec(_) => false,
        Shape::Ptr(_) => false,
        Shape::Text => false,
        Shape::Str(_) => false,
    }
}

// The relation that an operator is, but for `in`.
fn comparison_of(operator: Operator) -> Option<Comparison>
    ensures { result ≡ rule.comparison_of operator }
{
    match operator {
        Operator::Equal => Some(Comparison::Equal),
        Operator::NotEqual => Some(Comparison::NotEqual),
        Operator::Less => Some(Comparison::Less),
        Operator::LessOrEqual => Some(Comparison::LessOrEqual),
        Operator::Greater => Some(Comparison::Greater),
        Operator::GreaterOrEqual => Some(Comparison::GreaterOrEqual),
        Operator::In => None,
        Operator::Add => None,
        Operator::Subtract => None,
        Operator::Or => None,
        Operator::Multiply => None,
        Operator::Div => None,
        Operator::Mod => None,
        Operator::And => None,
    }
}

// The tree of a relation, where it takes its operands.
fn related(
    alloc: Global,
    comparison: Option<Comparison>,
    a: &Typed,
    b: &Typed,
    x: TypedExpr,
    y: TypedExpr,
) -> Result<Option<TypedExpr>, Memory>
    ensures { IfOk result (λ r. option_map plain_typed_expr r ≡ rule.related comparison a.now b.now (plain_typed_expr x) (plain_typed_expr y)) }
{
    match comparison {
        None => {
            if is_member(a, b) {
                return Ok(Some(in_node(alloc, x, y)?));
            }
            Ok(None)
        }
        Some(comparison) => match compared(comparison, a, b) {
            Some(sort) => Ok(Some(compare_node(alloc, sort, comparison, x, y)?)),
            None => Ok(None),
        },
    }
}

// The value of a relation.
fn related_value(alloc: Global, node: TypedExpr) -> Result<Value, Memory>
    ensures { IfOk result (λ v. value_of v ≡ variable.computed (Some rule.boolean) (plain_typed_expr node)) }
{
    let t = boolean(alloc)?;
    Ok(computed(Some(t), node))
}

// A relation, by its tree where it takes its operands.
fn relation_by<S: Scope>(
    alloc: Global,
    at: u32,
    node: Option<TypedExpr>,
    scope: &mut S,
    errors: &mut Items<RuleError>,
) -> Result<Value, Memory>
    ensures { FollowsAs value_of (rule.relation_by at (option_map plain_typed_expr node)) (S.state scope.old) errors.old (S.state scope.new) errors.new result }
{
    match node {
        Some(node) => related_value(alloc, node),
        None => {
            report(330, at, errors)?;
            Ok(wrong())
        }
    }
}

/// A relation between two values of these types (ISO 7185, 6.7.2.5). `at` is the ordinal of its operator.
pub fn related_values<S: Scope>(
    alloc: Global,
    at: u32,
    operator: Operator,
    a: &Typed,
    b: &Typed,
    x: TypedExpr,
    y: TypedExpr,
    scope: &mut S,
    errors: &mut Items<RuleError>,
) -> Result<Value, Memory>
    ensures { FollowsAs value_of (rule.relation_by at (rule.related (rule.comparison_of operator) a.now b.now (plain_typed_expr x) (plain_typed_expr y))) (S.state scope.old) errors.old (S.state scope.new) errors.new result }
{
    let node = related(alloc, comparison_of(operator), a, b, x, y)?;
    relation_by(alloc, at, node, scope, errors)
}
