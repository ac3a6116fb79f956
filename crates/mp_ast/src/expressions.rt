ghost use Rattle.std.specs.Prelude.{◌≡◌};
ghost use Rattle.mp_ast.specs.PlainExpressions.{plain_expr, plain_access};
ghost use Rattle.mp_ast.specs.FirstTokens.{first_of_access, first_of_expression};

use crate::leaves::{CharacterString, Identifier, Number, Sign};
use sqlite_items::{Boxed, Items};

/// An operator between two operands (ISO 7185, 6.7.2).
#[derive(Clone, Copy, PartialEq)]
pub enum Operator {
    Equal,
    NotEqual,
    Less,
    LessOrEqual,
    Greater,
    GreaterOrEqual,
    In,
    Add,
    Subtract,
    Or,
    Multiply,
    Div,
    Mod,
    And,
}

/// An operator where it stands, and what it takes behind it. `X` is what operands are.
#[derive(Drop)]
pub struct Operation<X> {
    /// The ordinal of the operator's token.
    pub at: u32,
    pub operator: Operator,
    pub operand: X,
}

/// One step from a variable to a part of it (ISO 7185, 6.5). `X` is what indices are.
#[derive(Drop)]
pub enum Selector<X> {
    /// The ordinal of `[`, or of the `,` before a further index, and the index: `a[i, j]` is `a[i][j]`.
    Index(u32, X),
    /// The ordinal of `.`, and the field's name.
    Field(u32, Identifier),
    /// The ordinal of `^`.
    Follow(u32),
}

/// A variable or a name, and the steps from it to a part (ISO 7185, 6.5).
#[derive(Drop)]
pub struct Access<X> {
    pub name: Identifier,
    pub selectors: Items<Selector<X>>,
}

/// The width of a `write` parameter (ISO 7185, 6.9.3).
#[derive(Drop)]
pub struct Width<X> {
    /// The ordinal of its `:`.
    pub at: u32,
    pub value: X,
}

/// An actual parameter (ISO 7185, 6.7.3), or a `write` parameter with its width.
#[derive(Drop)]
pub struct Actual<X> {
    pub value: X,
    pub width: Option<Boxed<Width<X>>>,
}

/// A member of a set constructor: one value, or all from the first to the last (ISO 7185, 6.7.1).
#[derive(Drop)]
pub struct Member<X> {
    pub first: X,
    pub last: Option<X>,
}

/// An expression (ISO 7185, 6.7.1). A part of the grammar without an operator makes no node, so that a factor alone is
/// itself the expression.
#[derive(Drop)]
pub enum Expr {
    Number(Number),
    Text(CharacterString),
    /// The ordinal of `nil`.
    Nil(u32),
    /// A variable, a constant, or a function without parameters.
    Access(Access<Expr>),
    /// A function with its actual parameters, of which there is at least one.
    Call(Identifier, Items<Actual<Expr>>),
    /// The ordinal of `(`, and the expression in the parentheses: it is no variable.
    Inside(u32, Boxed<Expr>),
    /// The ordinal of `not`, and its operand.
    Not(u32, Boxed<Expr>),
    /// The ordinal of `[`, and the members.
    Set(u32, Items<Member<Expr>>),
    /// A term: a factor and at least one further, each with the operator before it.
    Product(Boxed<Expr>, Items<Operation<Expr>>),
    /// A simple expression: a term with a sign, or with at least one further term.
    Sum(Option<Sign>, Boxed<Expr>, Items<Operation<Expr>>),
    /// Two simple expressions with a relation between them.
    Relation(Boxed<Expr>, Boxed<Operation<Expr>>),
}

impl Access<Expr> {
    /// The ordinal of its first token, which is the name's.
    pub fn first_token(&self) -> u32
        ensures { result ≡ first_of_access (plain_access self.now) }
    {
        self.name.at
    }
}

impl Expr {
    /// The ordinal of its first token: a sign's, or that of the leftmost operand.
    pub fn first_token(&self) -> u32
        ensures { result ≡ first_of_expression (plain_expr self.now) }
    {
        match self {
            Expr::Number(number) => number.at,
            Expr::Text(string) => string.at,
            Expr::Nil(at) => *at,
            Expr::Access(access) => access.first_token(),
            Expr::Call(name, _) => name.at,
            Expr::Inside(at, _) => *at,
            Expr::Not(at, _) => *at,
            Expr::Set(at, _) => *at,
            Expr::Product(first, _) => first.get().first_token(),
            Expr::Sum(sign, first, _) => match sign {
                Some(sign) => sign.at,
                None => first.get().first_token(),
            },
            Expr::Relation(left, _) => left.get().first_token(),
        }
    }
}
