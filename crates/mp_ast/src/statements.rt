ghost use Rattle.std.specs.Prelude.{◌≡◌};
ghost use Rattle.mp_ast.specs.PlainStatements.{plain_statement};
ghost use Rattle.mp_ast.specs.FirstTokens.{first_of_statement};

use crate::expressions::{Access, Actual, Expr};
use crate::leaves::{Constant, Identifier, Number};
use sqlite_items::{Boxed, Items};

/// Which way a `for` statement counts (ISO 7185, 6.8.3.9).
#[derive(Clone, Copy, PartialEq)]
pub enum Direction {
    To,
    Downto,
}

/// The head of a `for` statement: its control variable and limits.
#[derive(Drop)]
pub struct ForHead {
    pub variable: Identifier,
    /// The ordinal of `:=`.
    pub assign: u32,
    pub first: Boxed<Expr>,
    pub direction: Direction,
    pub last: Boxed<Expr>,
}

/// A case-list-element: constants and the statement for them (ISO 7185, 6.8.3.5). `S` is what statements are.
#[derive(Drop)]
pub struct Arm<S> {
    pub constants: Items<Constant>,
    pub body: S,
}

/// A statement (ISO 7185, 6.8).
#[derive(Drop)]
pub enum Statement {
    /// A label before a statement that has none.
    Labelled(Number, Boxed<Statement>),
    /// The ordinal of the token that follows.
    Empty(u32),
    /// The variable, or the function whose result is set; the ordinal of `:=`; the value.
    Assign(Access<Expr>, u32, Expr),
    /// A procedure with its actual parameters, if there are any.
    Call(Identifier, Items<Actual<Expr>>),
    /// The ordinal of `goto`, and the label.
    Goto(u32, Number),
    /// The ordinal of `begin`, and the statements.
    Compound(u32, Items<Statement>),
    /// The ordinal of `if`, the condition, and the one or two statements.
    If(u32, Boxed<Expr>, Boxed<Statement>, Option<Boxed<Statement>>),
    /// The ordinal of `case`, the index, and the arms.
    Case(u32, Boxed<Expr>, Items<Arm<Statement>>),
    /// The ordinal of `while`, the condition, and the body.
    While(u32, Boxed<Expr>, Boxed<Statement>),
    /// The ordinal of `repeat`, the statements, and the condition.
    Repeat(u32, Items<Statement>, Expr),
    /// The ordinal of `for`, its head, and the body.
    For(u32, Boxed<ForHead>, Boxed<Statement>),
    /// The ordinal of `with`, the records, and the body.
    With(u32, Items<Access<Expr>>, Boxed<Statement>),
}

impl Statement {
    /// The ordinal of its first token, which is its label's where it has one; an empty statement stands at the token
    /// that follows.
    pub fn first_token(&self) -> u32
        ensures { result ≡ first_of_statement (plain_statement self.now) }
    {
        match self {
            Statement::Labelled(label, _) => label.at,
            Statement::Empty(at) => *at,
            Statement::Assign(variable, _, _) => variable.first_token(),
            Statement::Call(name, _) => name.at,
            Statement::Goto(at, _) => *at,
            Statement::Compound(at, _) => *at,
            Statement::If(at, _, _, _) => *at,
            Statement::Case(at, _, _) => *at,
            Statement::While(at, _, _) => *at,
            Statement::Repeat(at, _, _) => *at,
            Statement::For(at, _, _) => *at,
            Statement::With(at, _, _) => *at,
        }
    }
}
