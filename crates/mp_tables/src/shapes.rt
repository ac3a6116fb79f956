ghost use Rattle.std.specs.Prelude.{◌≡◌, ◌++◌, ◌∷◌, [], OnOk, OnErr, find, nat_eq};
ghost use Rattle.std.specs.Option.{option_copied};
ghost use Rattle.mp_tables.specs.Seen.{shape_in};

use crate::tables::Shaped;
use crate::types::Shape;
use indexmap::IndexMap;
use mp_base::Memory;
use sqlite_items::Items;
use std::alloc::Global;
use std::marker::Model;

/// The new types of a block, in the order in which they were found. One is found by its ordinal in a time that does not grow
/// with their number. To a contract they are the plain list.
#[derive(Drop)]
pub struct Shapes {
    items: Items<Shaped>,
    // The number of the first type with each ordinal.
    first: IndexMap<u32, usize>,
}

impl Model for Shapes {
    ghost use Rattle.std.specs.Prelude.{List, nat_eq};
    ghost use Rattle.mp_tables.specs.declared.tables.Shaped.{Shaped};
    ghost use Rattle.mp_tables.specs.Lookups.{IsIndex};

    ghost Value = { List Shaped };

    ghost view = { λ shapes. shapes.items };

    ghost invariant = { λ shapes. IsIndex nat_eq (λ at x. nat_eq x.at at) shapes.first.entries shapes.items };
}

impl Shapes {
    /// No types.
    pub fn new(alloc: Global) -> Shapes
        ensures { result ≡ [] }
    {
        Shapes {
            items: Items::new(alloc),
            first: IndexMap::new(alloc),
        }
    }

    /// One more type, behind the others.
    pub fn push(&mut self, shaped: Shaped) -> Result<(), Memory>
        ensures ok { OnOk result (self.new ≡ self.old ++ shaped ∷ []) }
        ensures err { OnErr result (self.new ≡ self.old) }
    {
        let at = shaped.at;
        if self.first.contains_key(&at) {
            self.items.push(shaped)?;
            return Ok(());
        }
        let number = self.items.len();
        self.first.reserve(1)?;
        self.items.push(shaped)?;
        self.first.insert(at, number).unwrap();
        Ok(())
    }

    /// The shape of the type with this ordinal.
    pub fn get(&self, at: u32) -> Option<&Shape>
        ensures { option_copied result ≡ shape_in self.now at }
    {
        match self.found(at) {
            Some(shaped) => Some(&shaped.shape),
            None => None,
        }
    }

    // The first type with this ordinal.
    fn found(&self, at: u32) -> Option<&Shaped>
        ensures { option_copied result ≡ find (λ x. nat_eq x.at at) self.now }
    {
        match self.first.get(&at) {
            Some(number) => self.items.get(*number),
            None => None,
        }
    }

    /// All of them, in order.
    pub fn as_slice(&self) -> &[Shaped]
        ensures { result.now ≡ self.now }
    {
        self.items.as_slice()
    }
}
