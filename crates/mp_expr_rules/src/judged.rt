ghost use Rattle.std.specs.Prelude.{◌≡◌};
ghost use Rattle.std.specs.Option.{option_copied};
ghost use Rattle.mp_tables.specs.PlainTypedExpressions.{plain_typed_expr};
ghost use Rattle.mp_tables.specs.Variables as rule;
ghost use Rattle.mp_expr_rules.specs.Judged.{accessed_of, expressed_of, operand_of, value_of};

use crate::nodes::{load_node, wrong_node};
use crate::sorts::sort_of;
use mp_base::{Name, Path};
use mp_tables::{
    Callee, ConstantValue, FormalKind, Heading, Tagging, Typed, TypedAccess, TypedExpr,
    TypedOperator, TypedSelector,
};
use sqlite_items::Items;

/// An entire variable of a variable part: its name, its block, and whether a `for` of that block has it as control
/// variable.
#[derive(Drop)]
pub struct Entire {
    pub name: Name,
    pub path: Path,
    pub control: bool,
}

/// A variable (ISO 7185, 6.5).
#[derive(Drop)]
pub struct Accessed {
    pub access: TypedAccess<TypedExpr>,
    pub typed: Option<Typed>,
    /// Whether the last selector selects a component of a packed variable, or a tag field.
    pub guarded: bool,
    /// What it selects, where it is a tag field.
    pub tagging: Option<Tagging>,
    pub entire: Option<Entire>,
}

/// An expression that is no variable: its type and its tree, and whether it is a constant, with the constant's value,
/// where that is not missing.
#[derive(Drop)]
pub struct Value {
    pub typed: Option<Typed>,
    pub node: TypedExpr,
    pub constant: Option<Option<ConstantValue>>,
}

/// What an expression is (ISO 7185, 6.7).
#[derive(Drop)]
pub enum Expressed {
    Value(Value),
    /// Its name has an error, so that it is not known whether it is a variable or a constant.
    Unknown,
    Variable(Accessed),
}

/// What an operator does with two operands, and the type of the result.
#[derive(Drop)]
pub struct Operated {
    pub operator: TypedOperator,
    pub result: Typed,
}

/// The type of a result, where there is one, and the operator that it is of.
#[derive(Drop)]
pub struct Resulting {
    pub typed: Option<Typed>,
    pub operator: TypedOperator,
}

/// A step from a variable to a part of it, and what is selected. Where it has an error, no selector stands for it.
#[derive(Drop)]
pub struct Step {
    pub selector: Option<TypedSelector<TypedExpr>>,
    pub typed: Option<Typed>,
    pub guarded: bool,
    pub tagging: Option<Tagging>,
}

/// What the steps from a variable have selected, and these steps.
#[derive(Drop)]
pub struct Selected {
    pub selectors: Items<TypedSelector<TypedExpr>>,
    pub typed: Option<Typed>,
    pub guarded: bool,
    pub tagging: Option<Tagging>,
}

/// The type of an expression, where it is not missing, and its tree.
#[derive(Drop)]
pub struct Operand {
    pub typed: Option<Typed>,
    pub node: TypedExpr,
}

/// A procedure or function that is called or passed on.
#[derive(Drop)]
pub struct Given {
    pub kind: FormalKind,
    /// Where its block is, unless it has none.
    pub callee: Option<Callee>,
    pub heading: Heading,
}

/// The width of a `write` parameter, with the ordinal of its `:`.
#[derive(Drop)]
pub struct JudgedWidth {
    pub at: u32,
    pub value: Expressed,
}

/// An actual parameter that was judged: its first token and its value, or what it names, where a procedure or function is
/// wanted.
#[derive(Drop)]
pub struct Judged {
    pub first: u32,
    pub value: Expressed,
    pub given: Option<Given>,
    pub width: Option<JudgedWidth>,
}

/// An expression that is neither a variable nor a constant.
pub fn computed(typed: Option<Typed>, node: TypedExpr) -> Value
    ensures { value_of result ≡ rule.computed typed (plain_typed_expr node) }
{
    Value {
        typed,
        node,
        constant: None,
    }
}

/// An expression with an error.
pub fn wrong() -> Value
    ensures { value_of result ≡ rule.wrong }
{
    computed(None, wrong_node())
}

impl Accessed {
    // The type of the variable, and the tree of its value.
    fn operand(self) -> Operand
        ensures { operand_of result ≡ rule.computed self.typed (rule.load self.typed (accessed_of self).access) }
    {
        let Accessed { access, typed, .. } = self;
        match typed {
            Some(t) => {
                let sort = sort_of(&t);
                Operand {
                    typed: Some(t),
                    node: load_node(sort, access),
                }
            }
            None => Operand {
                typed: None,
                node: wrong_node(),
            },
        }
    }
}

impl Expressed {
    /// The type, and the tree.
    pub fn operand(self) -> Operand
        ensures { operand_of result ≡ rule.computed (expressed_of self).typed (expressed_of self).node }
    {
        match self {
            Expressed::Value(value) => {
                let Value { typed, node, .. } = value;
                Operand { typed, node }
            }
            Expressed::Unknown => Operand {
                typed: None,
                node: wrong_node(),
            },
            Expressed::Variable(a) => a.operand(),
        }
    }

    /// The type, where it is not missing.
    pub fn typed(&self) -> Option<&Typed>
        ensures { option_copied result ≡ (expressed_of self.now).typed }
    {
        match self {
            Expressed::Value(value) => value.typed.as_ref(),
            Expressed::Unknown => None,
            Expressed::Variable(a) => a.typed.as_ref(),
        }
    }
}
