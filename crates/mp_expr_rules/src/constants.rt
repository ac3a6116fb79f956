// Constants as values (ISO 7185, 6.3, 6.7.1).
ghost use Rattle.std.specs.Prelude.{◌≡◌, IfOk, None, Some, length};
ghost use Rattle.mp_tables.specs.declared.types.Shape.TheVariants as shape;
ghost use Rattle.mp_tables.specs.PlainTypedExpressions.{plain_typed_expr};
ghost use Rattle.mp_tables.specs.Reports.{Follows};
ghost use Rattle.mp_tables.specs.Standing.{ConstantStands};
ghost use Rattle.mp_tables.specs.Constants as constant;
ghost use Rattle.mp_tables.specs.Expressions as rule;
ghost use Rattle.mp_expr_rules.specs.Regions.{TypedStands};

use crate::names::typed;
use crate::nodes::{ordinal_node, text_node};
use mp_base::Memory;
use mp_scope::Scope;
use mp_tables::{ConstantValue, RuleError, Shape, Shared, Typed, TypedExpr};
use sqlite_items::Items;
use std::alloc::Global;

// The tree of a constant.
fn node_of(value: &ConstantValue) -> Result<TypedExpr, Memory>
    ensures { IfOk result (λ n. plain_typed_expr n ≡ rule.constant_node value.now) }
{
    match value {
        ConstantValue::Ordinal(_, n) => Ok(ordinal_node(*n)),
        ConstantValue::Text(characters) => Ok(text_node(characters.copy()?)),
    }
}

// The type of a character-string.
fn text_type(characters: &Shared<u8>) -> Result<Typed, Memory>
    ensures { IfOk result (λ t. t ≡ record { id = None; shape = shape.Str (length characters.now) }) }
{
    let length = characters.as_slice().len();
    if length > u32::MAX as usize {
        return Err(Memory);
    }
    Ok(Typed {
        id: None,
        shape: Shape::Str(length as u32),
    })
}

// The type of a constant: its host type, or a character-string.
fn constant_type<S: Scope>(
    alloc: Global,
    value: &ConstantValue,
    scope: &mut S,
    errors: &mut Items<RuleError>,
) -> Result<Typed, Memory>
    requires { ConstantStands (S.state scope.old).stands (Some value.now) }
    ensures follows { Follows (constant.constant_type value.now) (S.state scope.old) errors.old (S.state scope.new) errors.new result }
    ensures stands { IfOk result (λ t. TypedStands (S.state scope.old).stands t) }
{
    match value {
        ConstantValue::Ordinal(host, _) => typed(alloc, host, scope, errors),
        ConstantValue::Text(characters) => text_type(characters),
    }
}
