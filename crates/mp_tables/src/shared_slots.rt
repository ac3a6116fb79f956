ghost use Rattle.std.specs.Prelude.{◌≡◌, ◌<◌, ◌^◌, IfOk, length};
ghost use Rattle.std.specs.Cmp.Lexicographic.{pointwise, lists_per};
ghost use Rattle.std.specs.Option.{option_copied, option_map};
ghost use Rattle.mp_tables.specs.contracts.types.SlotPartialEq.TheImpl.Laws as same_slot;
ghost use Rattle.mp_tables.specs.Sizes.{numbered_slot, slot_named};

use crate::slots::Slots;
use crate::types::Slot;
use mp_base::{Memory, Name};
use std::alloc::Global;
use std::marker::Model;
use std::sync::Arc;

/// The fields and tags of a record, which copies share: a copy costs no more for many fields than for few. To a contract they
/// are the plain list.
#[derive(Drop)]
pub struct SharedSlots {
    slots: Arc<Slots>,
}

impl Model for SharedSlots {
    ghost use Rattle.std.specs.Prelude.{◌<◌, ◌^◌, List, length};
    ghost use Rattle.std.specs.Arc.{arc_value};
    ghost use Rattle.mp_tables.specs.declared.types.Slot.{Slot};

    ghost Value = { List Slot };

    ghost view = { λ shared. arc_value shared.slots };

    // No memory holds more, so that a number of fields is an `i64` too.
    ghost invariant = { λ shared. length (arc_value shared.slots) < 2 ^ 63 };
}

impl PartialEq for SharedSlots {
    ghost eq = { pointwise ⟦<Slot as PartialEq>⟧.eq };

    ghost laws = { lists_per same_slot.laws-law };

    fn eq(&self, other: &SharedSlots) -> bool {
        self.slots.as_slice() == other.slots.as_slice()
    }
}

impl SharedSlots {
    /// These fields, to be shared.
    pub fn new(alloc: Global, slots: Slots) -> Result<SharedSlots, Memory>
        ensures { IfOk result (λ shared. shared ≡ slots) }
    {
        if slots.as_slice().len() > isize::MAX as usize {
            return Err(Memory);
        }
        Ok(SharedSlots {
            slots: Arc::new(alloc, slots)?,
        })
    }

    /// The same fields, which are shared.
    pub fn copy(&self) -> Result<SharedSlots, Memory>
        ensures { IfOk result (λ shared. shared ≡ self.now) }
    {
        Ok(SharedSlots {
            slots: Arc::try_clone(&self.slots)?,
        })
    }

    /// The field of this name.
    pub fn get(&self, name: &Name) -> Option<&Slot>
        ensures { option_copied result ≡ slot_named name.now self.now }
    {
        self.slots.get(name)
    }

    /// The field of this name, with its number.
    pub fn numbered(&self, name: &Name) -> Option<(usize, &Slot)>
        ensures { option_map (λ p. (p.0, p.1.now)) result ≡ numbered_slot name.now 0 self.now }
    {
        self.slots.numbered(name)
    }

    /// All of them, in order.
    pub fn as_slice(&self) -> &[Slot]
        ensures { result.now ≡ self.now }
    {
        self.slots.as_slice()
    }

    /// How many there are.
    pub fn len(&self) -> usize
        ensures value { result ≡ length self.now }
        ensures small { result < 2 ^ 63 }
    {
        self.slots.as_slice().len()
    }
}
