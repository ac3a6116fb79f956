//! Where in the text of a program a place stands.
ghost use Rattle.std.specs.Prelude.{◌≡◌, ◌+◌, ◌<◌, ◌≤◌, All, IfSome, length};
ghost use Rattle.std.specs.Option.{option_map};
ghost use Rattle.mp_base.specs.Text.{bytes_of, lines_of};
ghost use Rattle.mp_ast.specs.PlainTrees.{plain_tree};
ghost use Rattle.mp_ast.specs.Blocks.{index_of, position, tokens_of};
ghost use Rattle.mp_ast.specs.Descent.{entered_from, index_at, standing_at};

use crate::nested::next_block;
use crate::shared::SharedTree;
use crate::tokens::Token;
use mp_base::{At, PathStep, Place, Positions, TEXT_LIMIT};

// A block's tree in its text, with the index of the block's first own token.
#[derive(Clone, Copy)]
struct StandingTree<'a> {
    start: u32,
    tree: &'a SharedTree,
}

// The tree of the nested block that a step goes to.
fn entered<'a>(first: u32, around: &'a SharedTree, step: &PathStep) -> Option<StandingTree<'a>>
    requires { first + tokens_of (plain_tree around.now) ≤ TEXT_LIMIT }
    ensures found { option_map (λ s. standing_at s.start s.tree.now) result ≡ entered_from (standing_at first around.now) step.now }
    ensures small { IfSome result (λ s. s.start + tokens_of (plain_tree s.tree.now) ≤ TEXT_LIMIT) }
{
    let mut declarations = around.own().get().declarations.as_slice();
    let mut start = first;
    let mut named = 0;
    let inside = around.inside();
    'nested: for tree in inside {
        let Some((declaration, more)) = next_block(declarations) else {
            return None;
        };
        if declaration.heading.name.name.same(&step.name) {
            named += 1;
            if named == step.nth {
                let start = start + declaration.semicolon + 1;
                return Some(StandingTree { start, tree });
            }
        }
        start += tree.tokens();
        declarations = more;
    }
    None
}

// The index in the text of the own token with an ordinal, where the block has one.
fn index_at(first: u32, block: &SharedTree, ordinal: u32) -> Option<u32>
    requires { first + tokens_of (plain_tree block.now) ≤ TEXT_LIMIT }
    ensures { result ≡ index_at (standing_at first block.now) ordinal }
{
    let own = block.own().get();
    if ordinal >= own.tokens {
        return None;
    }
    let mut declarations = own.declarations.as_slice();
    let mut start = first;
    let inside = block.inside();
    'nested: for tree in inside {
        let Some((declaration, more)) = next_block(declarations) else {
            return Some(start + ordinal);
        };
        if ordinal <= declaration.semicolon {
            return Some(start + ordinal);
        }
        start += tree.tokens();
        declarations = more;
    }
    Some(start + ordinal)
}

impl SharedTree {
    /// The index in the text of the token at a place, from 0; none where no block has the path, or its block has no such
    /// ordinal. It takes no memory, and time for the declarations and nested blocks of each block on the path.
    pub fn index_of(&self, place: &Place) -> Option<u32>
        ensures { result ≡ index_of (plain_tree self.now) place.now }
    {
        // Its type keeps that it is within the limits of a program.
        let _own = self.own();
        let mut block = StandingTree {
            start: 0,
            tree: self,
        };
        let steps = place.path.steps();
        'steps: for step in steps {
            let Some(nested) = entered(block.start, block.tree, step) else {
                return None;
            };
            block = nested;
        }
        index_at(block.start, block.tree, place.ordinal)
    }

    /// The line and column of a place, where it stands in the program of this text with these tokens. It takes no memory.
    pub fn position(&self, text: &[u8], tokens: &[Token], place: &Place) -> Option<At>
        requires few { length text.now ≤ TEXT_LIMIT }
        requires ended { text.now ≡ bytes_of (lines_of text.now) }
        requires within { All (λ token. token.start < length text.now) tokens.now }
        ensures { result ≡ position (lines_of text.now) tokens.now (plain_tree self.now) place.now }
    {
        let Some(index) = self.index_of(place) else {
            return None;
        };
        let byte = match tokens.get(index as usize) {
            Some(token) => token.start as usize,
            None => text.len(),
        };
        Some(Positions::new(text).find(byte))
    }
}
