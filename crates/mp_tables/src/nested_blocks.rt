ghost use Rattle.std.specs.Prelude.{◌≡◌, ◌++◌, ◌∷◌, [], OnOk, OnErr, find};
ghost use Rattle.std.specs.Option.{option_copied};
ghost use Rattle.mp_ast.specs.Blocks.{same_step};

use crate::tables::Nested;
use indexmap::IndexMap;
use mp_base::{Memory, PathStep};
use sqlite_items::Items;
use std::alloc::Global;
use std::marker::Model;

/// The blocks that stand directly in a block, in order of text. One is found by its step in a time that does not grow with
/// their number. To a contract they are the plain list.
#[derive(Drop)]
pub struct NestedBlocks {
    items: Items<Nested>,
    // The number of the first block with each step.
    first: IndexMap<PathStep, usize>,
}

impl Model for NestedBlocks {
    ghost use Rattle.std.specs.Prelude.{List};
    ghost use Rattle.mp_ast.specs.Blocks.{same_step};
    ghost use Rattle.mp_tables.specs.declared.tables.Nested.{Nested};
    ghost use Rattle.mp_tables.specs.Lookups.{IsIndex};

    ghost Value = { List Nested };

    ghost view = { λ blocks. blocks.items };

    ghost invariant = { λ blocks. IsIndex same_step (λ step x. same_step step x.step) blocks.first.entries blocks.items };
}

impl NestedBlocks {
    /// No blocks.
    pub fn new(alloc: Global) -> NestedBlocks
        ensures { result ≡ [] }
    {
        NestedBlocks {
            items: Items::new(alloc),
            first: IndexMap::new(alloc),
        }
    }

    /// One more block, behind the others.
    pub fn push(&mut self, nested: Nested) -> Result<(), Memory>
        ensures ok { OnOk result (self.new ≡ self.old ++ nested ∷ []) }
        ensures err { OnErr result (self.new ≡ self.old) }
    {
        if self.first.contains_key(&nested.step) {
            self.items.push(nested)?;
            return Ok(());
        }
        let step = PathStep {
            name: nested.step.name.copy()?,
            nth: nested.step.nth,
        };
        let number = self.items.len();
        self.first.reserve(1)?;
        self.items.push(nested)?;
        self.first.insert(step, number).unwrap();
        Ok(())
    }

    /// The first block with this step.
    pub fn get(&self, step: &PathStep) -> Option<&Nested>
        ensures { option_copied result ≡ find (λ x. same_step step.now x.step) self.now }
    {
        match self.first.get(step) {
            Some(number) => self.items.get(*number),
            None => None,
        }
    }

    /// All of them, in order.
    pub fn as_slice(&self) -> &[Nested]
        ensures { result.now ≡ self.now }
    {
        self.items.as_slice()
    }
}
