//! The data of the language: what a text is made of.
//!
//! The crate holds the tokens of a text with their kinds and places, the lexical errors, the 35 word-symbols with
//! their spellings (ISO 7185, 6.1), and the syntax trees of programs (6.2 to 6.10). Its `specs/` say which tree a list
//! of tokens has, with which tokens a program begins, and where a list of tokens first goes wrong; what each tree is as
//! plain data, which blocks a tree has, where in the text the own tokens of each stand, which token is the first of each
//! part, and what no program has although a tree's type allows it. It is data alone: it never lexes, parses or prints.
//! It promises how each word-symbol is written, that its lists are lists, that a block's own tree has at most 262,144
//! tokens, that a tree which is kept whole knows how many tokens and declarations it has in all, whatever it shares,
//! which blocks such a tree has, at which index and at which line and column a place of it stands, which token a part of a
//! tree begins with, and that two own trees, or two parts of one kind, are told to be the same exactly where they are; and
//! of its definitions (`laws`), that nothing of a tree is lost in plain data, that each
//! block has a path of its own, that each token of a program is an own token of exactly one block, that its tree has
//! the declarations that the grammar counts, that each part of a program begins at its first token, and that each block
//! of a program is well-formed; and (`ordinal_laws`) that each token which a tree tells of stands where the tree says.
//! `examples` has each production of the grammar once. It stands on `mp_base`.
#![tactic(auto)]

mod block_list;
mod blocks;
mod equality;
mod errors;
pub mod examples;
mod expressions;
mod headings;
pub mod laws;
mod leaves;
mod lexed;
mod nested;
pub mod ordinal_laws;
mod places;
mod shared;
mod statements;
mod symbols;
mod tokens;
mod types;
mod words;

pub use block_list::PlacedBlock;
pub use blocks::{
    Block, BlockTree, ConstantDefinition, Declaration, DeclaredBody, ProgramHeading, StatementPart,
    Tree, TypeDefinition,
};
pub use equality::Same;
pub use errors::{LexError, LexErrors};
pub use expressions::{Access, Actual, Expr, Member, Operation, Operator, Selector, Width};
pub use headings::{FormalSection, HeadingKind, HeadingTree};
pub use leaves::{CharacterString, Constant, Identifier, Number, Sign, SignKind};
pub use lexed::Lexed;
pub use shared::SharedTree;
pub use statements::{Arm, Direction, ForHead, Statement};
pub use symbols::Symbol;
pub use tokens::{Token, TokenKind, Tokens};
pub use types::{Denoter, Index, Section, Variant, VariantPart};
pub use words::WordSymbol;
