ghost use Rattle.std.specs.Prelude.{◌≡◌, ◌++◌, ◌∷◌, [], OnOk, OnErr};
ghost use Rattle.std.specs.Option.{option_copied, option_map};
ghost use Rattle.mp_tables.specs.Sizes.{numbered_slot, slot_named};

use crate::types::Slot;
use indexmap::IndexMap;
use mp_base::{Memory, Name};
use sqlite_items::Items;
use std::alloc::Global;
use std::marker::Model;

/// The fields and tags of a record, in order of text. A field is found by its name in a time that does not grow with their
/// number. To a contract they are the plain list.
#[derive(Drop)]
pub struct Slots {
    items: Items<Slot>,
    // The number of the first field of each name.
    first: IndexMap<Name, usize>,
}

impl Model for Slots {
    ghost use Rattle.std.specs.Prelude.{List, bytes_eq};
    ghost use Rattle.mp_tables.specs.declared.types.Slot.{Slot};
    ghost use Rattle.mp_tables.specs.Lookups.{IsIndex};
    ghost use Rattle.mp_tables.specs.Sizes.{has_name};

    ghost Value = { List Slot };

    ghost view = { λ slots. slots.items };

    ghost invariant = { λ slots. IsIndex bytes_eq (λ n s. has_name n s.name) slots.first.entries slots.items };
}

impl Slots {
    /// No fields.
    pub fn new(alloc: Global) -> Slots
        ensures { result ≡ [] }
    {
        Slots {
            items: Items::new(alloc),
            first: IndexMap::new(alloc),
        }
    }

    /// One more, behind the others.
    pub fn push(&mut self, slot: Slot) -> Result<(), Memory>
        ensures ok { OnOk result (self.new ≡ self.old ++ slot ∷ []) }
        ensures err { OnErr result (self.new ≡ self.old) }
    {
        let name = match &slot.name {
            Some(name) => name.copy()?,
            None => {
                self.items.push(slot)?;
                return Ok(());
            }
        };
        if self.first.contains_key(&name) {
            self.items.push(slot)?;
            return Ok(());
        }
        let number = self.items.len();
        self.first.reserve(1)?;
        self.items.push(slot)?;
        self.first.insert(name, number).unwrap();
        Ok(())
    }

    /// The field of this name.
    pub fn get(&self, name: &Name) -> Option<&Slot>
        ensures { option_copied result ≡ slot_named name.now self.now }
    {
        match self.first.get(name) {
            Some(number) => self.items.get(*number),
            None => None,
        }
    }

    /// The field of this name, with its number.
    pub fn numbered(&self, name: &Name) -> Option<(usize, &Slot)>
        ensures { option_map (λ p. (p.0, p.1.now)) result ≡ numbered_slot name.now 0 self.now }
    {
        match self.first.get(name) {
            Some(number) => match self.items.get(*number) {
                Some(slot) => Some((*number, slot)),
                None => None,
            },
            None => None,
        }
    }

    /// All of them, in order.
    pub fn as_slice(&self) -> &[Slot]
        ensures { result.now ≡ self.now }
    {
        self.items.as_slice()
    }
}
