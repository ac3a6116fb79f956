//! The blocks of a tree, in order of text.
ghost use Rattle.std.specs.Prelude.{◌≡◌, ◌+◌, ◌≤◌, ℕ, List, ◌++◌, ◌∷◌, IfOk, OnOk, map};
ghost use Rattle.mp_ast.specs.PlainTrees.{plain_tree};
ghost use Rattle.mp_ast.specs.Blocks.{blocks, blocks_from, tokens_of};
ghost use Rattle.mp_ast.specs.BlockLists.{AreCounted, counted, placed};

use crate::nested::next_block;
use crate::shared::SharedTree;
use mp_base::{Memory, Name, Path, TEXT_LIMIT};
use std::alloc::Global;
use std::collections::HashMap;

/// A block of a tree.
#[derive(Drop)]
pub struct PlacedBlock {
    pub path: Path,
    /// The index in the text of its first own token.
    pub start: u32,
    /// Its tree, which is shared with the tree that it stands in.
    pub tree: SharedTree,
}

// The number that is kept of a name; 0 where none is.
fn number_of(counts: &HashMap<Name, u32>, name: &Name) -> u32
    ensures { result ≡ counted counts.now name.now }
{
    match counts.get(name) {
        Some(number) => *number,
        None => 0,
    }
}

// Which declaration with a block of its name the next one is, from 1.
fn next_number(counts: &mut HashMap<Name, u32>, name: &Name) -> Result<u32, Memory>
    requires few { (name : List ℕ) → counted counts.old name ≤ TEXT_LIMIT }
    ensures number { IfOk result (λ nth. nth ≡ counted counts.old name.now + 1) }
    ensures counts { OnOk result ((earlier : List (List ℕ)) → AreCounted counts.old earlier → AreCounted counts.new (name.now ∷ earlier)) }
{
    let number = number_of(counts, name) + 1;
    counts.insert(name.copy()?, number)?;
    Ok(number)
}

// Adds the blocks of a tree whose block has this path and begins at this index.
fn add_blocks(
    alloc: Global,
    found: &mut Vec<PlacedBlock>,
    path: &Path,
    start: u32,
    tree: &SharedTree,
) -> Result<(), Memory>
    requires { start + tokens_of (plain_tree tree.now) ≤ TEXT_LIMIT }
    ensures { OnOk result (map placed found.new.items ≡ map placed found.old.items ++ blocks_from path.now start (plain_tree tree.now)) }
{
    found.push(PlacedBlock {
        path: path.copy()?,
        start,
        tree: tree.copy()?,
    })?;
    let mut counts = HashMap::new(alloc);
    let mut declarations = tree.own().get().declarations.as_slice();
    let mut behind = start;
    let inside = tree.inside();
    'nested: for nested in inside {
        let Some((declaration, more)) = next_block(declarations) else {
            return Ok(());
        };
        let name = &declaration.heading.name.name;
        let nth = next_number(&mut counts, name)?;
        let inner = path.child(name, nth)?;
        add_blocks(
            alloc,
            found,
            &inner,
            behind + declaration.semicolon + 1,
            nested,
        )?;
        behind += nested.tokens();
        declarations = more;
    }
    Ok(())
}

impl SharedTree {
    /// Its blocks in order of text, each with its path. The work is in proportion to the declarations and blocks; a path is
    /// copied for each block below it.
    pub fn blocks(&self, alloc: Global) -> Result<Vec<PlacedBlock>, Memory>
        ensures { IfOk result (λ found. map placed found.items ≡ blocks (plain_tree self.now)) }
    {
        // Its type keeps that it is within the limits of a program.
        let _own = self.own();
        let mut found = Vec::new(alloc);
        let top = Path::top(alloc)?;
        add_blocks(alloc, &mut found, &top, 0, self)?;
        Ok(found)
    }
}
