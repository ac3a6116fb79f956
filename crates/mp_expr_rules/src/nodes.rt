// Nodes of typed trees, by what they are as plain data.
ghost use Rattle.std.specs.Prelude.{◌≡◌, IfOk};
ghost use Rattle.mp_tables.specs.PlainTypedExpressions as tree;
ghost use Rattle.mp_tables.specs.PlainTypedExpressions.{plain_typed_expr, selectors_of, actuals_of, operations_of, members_of};

use mp_ast::SignKind;
use mp_base::Memory;
use mp_tables::{
    Comparison, OrdinalFunction, Shared, Sort, TypedAccess, TypedCall, TypedExpr, TypedMember,
    TypedOperation,
};
use sqlite_items::{Boxed, Items};
use std::alloc::Global;

#[tactic(auto, using(crate::proofs::PlainTypedLemmas::plain_ordinal))]
pub(crate) fn ordinal_node(value: i64) -> TypedExpr
    ensures { plain_typed_expr result ≡ tree.Ordinal value }
{
    TypedExpr::Ordinal(value)
}

#[tactic(auto, using(crate::proofs::PlainTypedLemmas::plain_text))]
pub(crate) fn text_node(characters: Shared<u8>) -> TypedExpr
    ensures { plain_typed_expr result ≡ tree.Text characters }
{
    TypedExpr::Text(characters)
}

#[tactic(auto, using(crate::proofs::PlainTypedLemmas::plain_nil))]
pub(crate) fn nil_node() -> TypedExpr
    ensures { plain_typed_expr result ≡ tree.Nil }
{
    TypedExpr::Nil
}

#[tactic(auto, using(crate::proofs::PlainTypedLemmas::plain_load))]
pub(crate) fn load_node(sort: Sort, access: TypedAccess<TypedExpr>) -> TypedExpr
    ensures { plain_typed_expr result ≡ tree.Load sort access.root (selectors_of plain_typed_expr access.selectors) }
{
    TypedExpr::Load(sort, access)
}

#[tactic(auto, using(crate::proofs::PlainTypedLemmas::plain_call))]
pub(crate) fn call_node(sort: Sort, call: TypedCall<TypedExpr>) -> TypedExpr
    ensures { plain_typed_expr result ≡ tree.Call sort call.callee (actuals_of plain_typed_expr call.actuals) }
{
    TypedExpr::Call(sort, call)
}

#[tactic(auto, using(crate::proofs::PlainTypedLemmas::plain_apply))]
pub(crate) fn apply_node(
    alloc: Global,
    function: OrdinalFunction,
    x: TypedExpr,
) -> Result<TypedExpr, Memory>
    ensures { IfOk result (λ node. plain_typed_expr node ≡ tree.Apply function (plain_typed_expr x)) }
{
    Ok(TypedExpr::Apply(function, Boxed::new(alloc, x)?))
}

#[tactic(auto, using(crate::proofs::PlainTypedLemmas::plain_eof))]
pub(crate) fn eof_node(file: TypedAccess<TypedExpr>) -> TypedExpr
    ensures { plain_typed_expr result ≡ tree.Eof file.root (selectors_of plain_typed_expr file.selectors) }
{
    TypedExpr::Eof(file)
}

#[tactic(auto, using(crate::proofs::PlainTypedLemmas::plain_eoln))]
pub(crate) fn eoln_node(file: TypedAccess<TypedExpr>) -> TypedExpr
    ensures { plain_typed_expr result ≡ tree.Eoln file.root (selectors_of plain_typed_expr file.selectors) }
{
    TypedExpr::Eoln(file)
}

#[tactic(auto, using(crate::proofs::PlainTypedLemmas::plain_not))]
pub(crate) fn not_node(alloc: Global, x: TypedExpr) -> Result<TypedExpr, Memory>
    ensures { IfOk result (λ node. plain_typed_expr node ≡ tree.Not (plain_typed_expr x)) }
{
    Ok(TypedExpr::Not(Boxed::new(alloc, x)?))
}

#[tactic(auto, using(crate::proofs::PlainTypedLemmas::plain_signed))]
pub(crate) fn signed_node(alloc: Global, sign: SignKind, x: TypedExpr) -> Result<TypedExpr, Memory>
    ensures { IfOk result (λ node. plain_typed_expr node ≡ tree.Signed sign (plain_typed_expr x)) }
{
    Ok(TypedExpr::Signed(sign, Boxed::new(alloc, x)?))
}

#[tactic(auto, using(crate::proofs::PlainTypedLemmas::plain_chain))]
pub(crate) fn chain_node(
    alloc: Global,
    first: TypedExpr,
    more: Items<TypedOperation<TypedExpr>>,
) -> Result<TypedExpr, Memory>
    ensures { IfOk result (λ node. plain_typed_expr node ≡ tree.Chain (plain_typed_expr first) (operations_of plain_typed_expr more)) }
{
    Ok(TypedExpr::Chain(Boxed::new(alloc, first)?, more))
}

#[tactic(auto, using(crate::proofs::PlainTypedLemmas::plain_compare))]
pub(crate) fn compare_node(
    alloc: Global,
    sort: Sort,
    comparison: Comparison,
    x: TypedExpr,
    y: TypedExpr,
) -> Result<TypedExpr, Memory>
    ensures { IfOk result (λ node. plain_typed_expr node ≡ tree.Compare sort comparison (plain_typed_expr x) (plain_typed_expr y)) }
{
    let x = Boxed::new(alloc, x)?;
    Ok(TypedExpr::Compare(sort, comparison, x, Boxed::new(alloc, y)?))
}

#[tactic(auto, using(crate::proofs::PlainTypedLemmas::plain_in))]
pub(crate) fn in_node(alloc: Global, x: TypedExpr, y: TypedExpr) -> Result<TypedExpr, Memory>
    ensures { IfOk result (λ node. plain_typed_expr node ≡ tree.In (plain_typed_expr x) (plain_typed_expr y)) }
{
    let x = Boxed::new(alloc, x)?;
    Ok(TypedExpr::In(x, Boxed::new(alloc, y)?))
}

#[tactic(auto, using(crate::proofs::PlainTypedLemmas::plain_set))]
pub(crate) fn set_node(members: Items<TypedMember<TypedExpr>>) -> TypedExpr
    ensures { plain_typed_expr result ≡ tree.Set (members_of plain_typed_expr members) }
{
    TypedExpr::Set(members)
}

#[tactic(auto, using(crate::proofs::PlainTypedLemmas::plain_wrong))]
pub(crate) fn wrong_node() -> TypedExpr
    ensures { plain_typed_expr result ≡ tree.Wrong }
{
    TypedExpr::Wrong
}
