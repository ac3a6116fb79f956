use crate::leaves::Identifier;
use sqlite_items::{Boxed, Items};

/// A formal parameter section (ISO 7185, 6.6.3.1).
#[derive(Drop)]
pub enum FormalSection {
    /// Value parameters of one type.
    Values(Items<Identifier>, Identifier),
    /// The ordinal of `var`, and variable parameters of one type.
    Variables(u32, Items<Identifier>, Identifier),
    /// The ordinal of `procedure`, the name, and its own parameters.
    Procedure(u32, Identifier, Items<FormalSection>),
    /// The ordinal of `function`, the name, its own parameters, and its result type.
    Function(u32, Identifier, Items<FormalSection>, Identifier),
}

/// What a heading declares, with the result type that a function's heading names, if it names one (ISO 7185, 6.6.1,
/// 6.6.2).
#[derive(Drop)]
pub enum HeadingKind {
    Procedure,
    Function(Option<Identifier>),
}

/// The heading of a procedure or function declaration.
#[derive(Drop)]
pub struct HeadingTree {
    /// The ordinal of `procedure` or `function`.
    pub at: u32,
    pub name: Identifier,
    /// Its formal parameter sections, if there are any.
    pub formals: Items<FormalSection>,
    pub kind: HeadingKind,
}
