ghost use Rattle.std.specs.Prelude.{◌≡◌, ◌≤◌, IfOk};

use crate::headings::HeadingTree;
use crate::leaves::{Constant, Identifier, Number};
use crate::statements::Statement;
use crate::types::{Denoter, Section};
use mp_base::{Memory, TEXT_LIMIT};
use sqlite_items::{Boxed, Items};
use std::alloc::Global;
use std::marker::Model;
use std::sync::Arc;

/// The heading of a program: its name and its parameters (ISO 7185, 6.10).
#[derive(Drop)]
pub struct ProgramHeading {
    pub name: Identifier,
    pub parameters: Items<Identifier>,
}

/// A constant definition (ISO 7185, 6.3). It goes from its name to the token before its `;`.
#[derive(Drop)]
pub struct ConstantDefinition {
    pub name: Identifier,
    pub value: Constant,
    /// The ordinal of its `;`.
    pub semicolon: u32,
}

/// A type definition (ISO 7185, 6.4.1). It goes from its name to the token before its `;`.
#[derive(Drop)]
pub struct TypeDefinition {
    pub name: Identifier,
    pub of: Boxed<Denoter>,
    /// The ordinal of its `;`.
    pub semicolon: u32,
}

/// What follows a heading: a block, whose tree stands beside this one, or `forward` with its ordinal.
#[derive(Clone, Copy)]
pub enum DeclaredBody {
    Block,
    Forward(u32),
}

/// A procedure or function declaration as the enclosing block has it (ISO 7185, 6.6.1, 6.6.2).
#[derive(Drop)]
pub struct Declaration {
    pub heading: HeadingTree,
    /// The ordinal of the `;` that ends the heading.
    pub semicolon: u32,
    pub body: DeclaredBody,
}

/// The statement part of a block (ISO 7185, 6.2.1).
#[derive(Drop)]
pub enum StatementPart {
    /// The ordinal of `begin`, the statements, and the ordinal of `end`.
    Compound(u32, Items<Statement>, u32),
}

/// A block's own tree (ISO 7185, 6.2.1). All ordinals in it count the block's own tokens, from 0: a nested declaration
/// has its heading here, and what follows the heading's `;` up to the nested block's `end` belongs to the nested block.
#[derive(Drop)]
pub struct Block {
    /// The program's heading, which the program's block alone has.
    pub program: Option<ProgramHeading>,
    /// The labels of its label part.
    pub labels: Items<Number>,
    pub constants: Items<ConstantDefinition>,
    pub types: Items<TypeDefinition>,
    pub variables: Items<Section<Denoter>>,
    pub declarations: Items<Declaration>,
    pub statements: StatementPart,
    /// How many own tokens it has.
    pub tokens: u32,
}

/// A block's own tree, of at most `TEXT_LIMIT` own tokens; copies share it.
#[derive(Drop)]
pub struct BlockTree {
    shared: Arc<Block>,
}

impl Model for BlockTree {
    ghost use Rattle.std.specs.Prelude.{◌≤◌};
    ghost use Rattle.std.specs.Arc.{arc_value};
    ghost use Rattle.mp_base.specs.declared.limits.TheConstants.{TEXT_LIMIT};
    ghost use Rattle.std.specs.Coded.{codes};
    ghost use Rattle.mp_ast.specs.declared.blocks.Block.{Block};
    ghost use Rattle.mp_ast.specs.contracts.blocks.Block as block;

    ghost Value = { Block };

    ghost coded = { Prim.hlevel (codes, block.the_row.coded) };

    ghost view = { λ tree. arc_value tree.shared };

    ghost invariant = { λ tree. (arc_value tree.shared).tokens ≤ TEXT_LIMIT };
}

impl BlockTree {
    /// The tree, to be shared.
    pub fn new(alloc: Global, block: Block) -> Result<BlockTree, Memory>
        requires { block.tokens ≤ TEXT_LIMIT }
        ensures { IfOk result (λ tree. tree ≡ block) }
    {
        Ok(BlockTree {
            shared: Arc::new(alloc, block)?,
        })
    }

    /// The same tree, which is shared.
    pub fn copy(&self) -> Result<BlockTree, Memory>
        ensures { IfOk result (λ tree. tree ≡ self.now) }
    {
        Ok(BlockTree {
            shared: Arc::try_clone(&self.shared)?,
        })
    }

    /// The tree itself.
    pub fn get(&self) -> &Block
        ensures block { result.now ≡ self.now }
        ensures tokens { self.now.tokens ≤ TEXT_LIMIT }
    {
        &self.shared
    }
}

/// The tree of a block with those of the blocks in it, in order of text. The tree of the program's block is that of
/// the program. Code has it as a `SharedTree`, which is this one to a contract.
#[derive(Drop)]
pub struct Tree {
    pub own: BlockTree,
    pub inside: Items<Tree>,
}
