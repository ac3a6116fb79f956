// Rows that make and dispose of objects (ISO 7185, 6.6.5.3).
ghost use Rattle.std.specs.Prelude.{◌≡◌, ◌-◌, ◌^◌, ◌<◌, ◌+◌, OnOk, length, ℕ};
ghost use Rattle.mp_machine.specs.Blocks.{Path as Steps};
ghost use Rattle.mp_machine.specs.ObjectRows as object;
ghost use Rattle.mp_machine.specs.Outcomes.{Done};
ghost use Rattle.mp_machine.specs.Shown.{Agrees, IsLoaded, NoMemory, Sound, state_of};

use crate::addresses::Address;
use crate::objects::Object;
use crate::processor::{Processor, Stop};
use mp_base::{CELL_LIMIT, Memory};
use mp_memory::Cell;

impl Processor {
    /// Ref : none. A new object of so many cells, whose pointer is stored. Fault 8 for the variable of a disposed object
    /// comes before limit 2 on live cells.
    pub(crate) fn make(&mut self, cells: u32) -> Result<(), Stop>
        requires sound { Sound self.old }
        requires fewer { self.old.store.next < 2 ^ 64 - 1 }
        ensures row { (paths : ℕ → Steps) → Agrees (object.new cells (state_of paths self.old)) result (state_of paths self.new) }
        ensures sound { OnOk result (Sound self.new) }
        ensures loaded { (n : ℕ) → IsLoaded n self.old → IsLoaded n self.new }
    {
        let a = self.take_address()?;
        let _ = self.cell_of(a)?;
        self.make_at(a, cells)
    }

    // A new object, whose pointer is stored there.
    fn make_at(&mut self, a: Address, cells: u32) -> Result<(), Stop>
        requires sound { Sound self.old }
        requires fewer { self.old.store.next < 2 ^ 64 - 1 }
        ensures row { (paths : ℕ → Steps) → Agrees (object.new_at a cells (state_of paths self.old)) result (state_of paths self.new) }
        ensures sound { OnOk result (Sound self.new) }
        ensures loaded { (n : ℕ) → IsLoaded n self.old → IsLoaded n self.new }
    {
        if u128::from(self.used) + self.object_cells() + u128::from(cells)
            > u128::from(CELL_LIMIT)
        {
            return Err(Stop::Limit(2));
        }
        self.add_object(cells)?;
        let number = self.objects.len() as u64;
        self.set_cell(a, Cell::Ptr(number))
    }

    fn add_object(&mut self, cells: u32) -> Result<(), Stop>
        requires sound { Sound self.old }
        requires fewer { self.old.store.next < 2 ^ 64 - 1 }
        ensures row { (paths : ℕ → Steps) → Agrees (Done tt (object.with_object cells (state_of paths self.old))) result (state_of paths self.new) }
        ensures sound { OnOk result (Sound self.new) }
        ensures loaded { (n : ℕ) → IsLoaded n self.old → IsLoaded n self.new }
        ensures count { OnOk result (length self.new.objects.items ≡ length self.old.objects.items + 1) }
    {
        let root = match self.store.add(cells) {
            Ok(root) => root,
            Err(Memory) => return Err(Stop::Memory),
        };
        let Ok(_) = self.objects.push(Object { root, cells }) else {
            return Err(Stop::Memory);
        };
        Ok(())
    }

    /// Ptr : none. Fault 7 for nil, fault 8 for a disposed object.
    pub(crate) fn dispose(&mut self) -> Result<(), Stop>
        requires sound { Sound self.old }
        ensures row { (paths : ℕ → Steps) → Agrees (object.dispose (state_of paths self.old)) result (state_of paths self.new) }
        ensures sound { OnOk result (Sound self.new) }
        ensures loaded { (n : ℕ) → IsLoaded n self.old → IsLoaded n self.new }
        ensures memory { NoMemory result }
    {
        let pointer = self.take_pointer()?;
        let object = self.object_at(pointer)?;
        let _ = self.store.drop_root(object.root);
        Ok(())
    }
}
