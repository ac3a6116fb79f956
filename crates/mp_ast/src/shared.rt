ghost use Rattle.std.specs.Prelude.{◌≡◌, ◌≤◌, ◌<◌, IfOk};
ghost use Rattle.mp_ast.specs.PlainTrees.{trees_of, plain_tree};
ghost use Rattle.mp_ast.specs.Blocks.{tokens_of, tokens_of_all};
ghost use Rattle.mp_ast.specs.SharedTrees.{IsOfAProgram, node, own_of, inside_of, declarations_of, declarations_of_all};

use crate::blocks::BlockTree;
use mp_base::{DECLARATION_LIMIT, Memory, TEXT_LIMIT};
use sqlite_items::Items;
use std::alloc::Global;
use std::marker::Model;
use std::sync::Arc;

/// A `Tree` that is kept whole: copies share it, and a tree may hold one that stands in another as well. It knows how
/// many tokens and declarations it has in all. It is within the limits of a program, and its parts fit together. To a
/// contract it is the `Tree` itself, whatever is shared.
#[cycle(shared)]
#[derive(Drop)]
pub struct SharedTree {
    shared: Arc<Node>,
    tokens: u32,
    declarations: u32,
}

// A block's own tree, with the trees of the blocks that stand directly in it.
#[cycle(shared)]
#[derive(Drop)]
struct Node {
    own: BlockTree,
    inside: Items<SharedTree>,
}

impl Model for SharedTree {
    ghost use Rattle.std.proofs.Common.{arith};
    ghost use Rattle.std.specs.Arc.{arc_value};
    ghost use Rattle.std.specs.Coded.{codes};
    ghost use Rattle.mp_ast.specs.declared.blocks.Tree.{Tree};
    ghost use Rattle.mp_ast.specs.contracts.blocks.Tree as tree;
    ghost use Rattle.mp_ast.specs.SharedTrees.{IsKept, node};
    ghost use Rattle.mp_ast.specs.TreeSizes.{size_of, children_are_smaller};

    ghost Value = { Tree };

    ghost coded = { Prim.hlevel (codes, tree.the_row.coded) };

    ghost view = { λ t. node (arc_value t.shared).own (arc_value t.shared).inside };

    ghost invariant = { λ t. IsKept (node (arc_value t.shared).own (arc_value t.shared).inside) t.tokens t.declarations };

    ghost size = { size_of };

    ghost size_decreases = { λ t h. omega (arith, children_are_smaller t.shared.value.own t.shared.value.inside) };
}

// How many tokens these trees have in all.
fn tokens_in(trees: &[SharedTree]) -> u32
    requires { tokens_of_all (trees_of plain_tree trees.now) ≤ TEXT_LIMIT }
    ensures { result ≡ tokens_of_all (trees_of plain_tree trees.now) }
{
    let mut tokens: u32 = 0;
    for tree in trees {
        tokens += tree.tokens();
    }
    tokens
}

// How many declarations stand in these trees.
fn declarations_in(trees: &[SharedTree]) -> u32
    requires { declarations_of_all (trees_of plain_tree trees.now) < DECLARATION_LIMIT }
    ensures { result ≡ declarations_of_all (trees_of plain_tree trees.now) }
{
    let mut declarations: u32 = 0;
    for tree in trees {
        declarations += tree.declarations();
    }
    declarations
}

impl SharedTree {
    /// The tree of a block with those of the blocks that stand directly in it, to be shared.
    pub fn new(
        alloc: Global,
        own: BlockTree,
        inside: Items<SharedTree>,
    ) -> Result<SharedTree, Memory>
        requires { IsOfAProgram (node own inside) }
        ensures { IfOk result (λ tree. tree ≡ node own inside) }
    {
        let block = own.get();
        let tokens = block.tokens + tokens_in(inside.as_slice());
        let declarations = block.declarations.len() as u32 + declarations_in(inside.as_slice());
        Ok(SharedTree {
            shared: Arc::new(alloc, Node { own, inside })?,
            tokens,
            declarations,
        })
    }

    /// The same tree, which is shared.
    pub fn copy(&self) -> Result<SharedTree, Memory>
        ensures { IfOk result (λ tree. tree ≡ self.now) }
    {
        Ok(SharedTree {
            shared: Arc::try_clone(&self.shared)?,
            tokens: self.tokens,
            declarations: self.declarations,
        })
    }

    /// The own tree of its block.
    pub fn own(&self) -> &BlockTree
        ensures own { result.now ≡ own_of self.now }
        ensures tree { IsOfAProgram self.now }
    {
        &self.shared.own
    }

    /// The trees of the blocks that stand directly in it, in order of text.
    pub fn inside(&self) -> &[SharedTree]
        ensures { result.now ≡ inside_of self.now }
    {
        self.shared.inside.as_slice()
    }

    /// How many tokens it has, those of the blocks in it too.
    pub fn tokens(&self) -> u32
        ensures { result ≡ tokens_of (plain_tree self.now) }
    {
        self.tokens
    }

    /// How many procedure and function declarations stand in it, in all of its blocks.
    pub fn declarations(&self) -> u32
        ensures { result ≡ declarations_of (plain_tree self.now) }
    {
        self.declarations
    }
}
