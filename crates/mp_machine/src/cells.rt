// Cells under references (ISO 7185, 6.5), and objects (ISO 7185, 6.6.5.3).
ghost use Rattle.std.specs.Prelude.{◌≡◌, ℕ};
ghost use Rattle.mp_machine.specs.Blocks.{Path as Steps};
ghost use Rattle.mp_machine.specs.Memory as memory;
ghost use Rattle.mp_machine.specs.Shown.{Agrees, Fits, NoMemory, Unmoved, state_of};
ghost use Rattle.mp_machine.specs.States.{State};

use crate::addresses::Address;
use crate::objects::Object;
use crate::operands::Cells;
use crate::processor::{Processor, Stop};
use mp_base::Memory;
use mp_memory::Cell;

/// A cell that is read. Fault 9 where it is undefined.
#[inline(always)]
pub(crate) fn defined(x: Cell) -> Result<Cell, Stop>
    ensures row { (s : State) → Agrees (memory.defined x s) result s }
    ensures memory { NoMemory result }
{
    match x {
        Cell::Undef => Err(Stop::Fault(9)),
        x => Ok(x),
    }
}

impl Processor {
    /// The cell under a reference. Fault 8 where its object is disposed of.
    #[inline(always)]
    pub(crate) fn cell_of(&self, a: Address) -> Result<Cell, Stop>
        ensures row { (paths : ℕ → Steps) → Agrees (memory.cell_of a (state_of paths self.now)) result (state_of paths self.now) }
        ensures memory { NoMemory result }
    {
        match self.store.get(a.root, a.offset) {
            Some(x) => Ok(x.copy()),
            None => {
                if self.store.is_live(a.root) {
                    return Err(Stop::Stuck);
                }
                Err(Stop::Fault(8))
            }
        }
    }

    /// The cells from a reference on become these.
    pub(crate) fn set_cells(&mut self, a: Address, new: &[Cell]) -> Result<(), Stop>
        ensures row { (paths : ℕ → Steps) → Agrees (memory.set_cells a new.now (state_of paths self.old)) result (state_of paths self.new) }
        ensures kept { Unmoved self.old self.new }
        ensures room { (n : ℕ) → Fits n self.old → Fits n self.new }
        ensures memory { NoMemory result }
    {
        if !self.store.is_live(a.root) {
            return Err(Stop::Fault(8));
        }
        if self.store.write(a.root, a.offset, new) {
            return Ok(());
        }
        Err(Stop::Stuck)
    }

    #[inline(always)]
    pub(crate) fn set_cell(&mut self, a: Address, x: Cell) -> Result<(), Stop>
        ensures row { (paths : ℕ → Steps) → Agrees (memory.set_cell a x (state_of paths self.old)) result (state_of paths self.new) }
        ensures kept { Unmoved self.old self.new }
        ensures room { (n : ℕ) → Fits n self.old → Fits n self.new }
        ensures memory { NoMemory result }
    {
        if self.store.set(a.root, a.offset, x) {
            return Ok(());
        }
        if self.store.is_live(a.root) {
            return Err(Stop::Stuck);
        }
        Err(Stop::Fault(8))
    }

    /// So many cells from a reference on become undefined.
    pub(crate) fn clear_cells(&mut self, a: Address, cells: u32) -> Result<(), Stop>
        ensures row { (paths : ℕ → Steps) → Agrees (memory.set_cells a (memory.undefined_cells cells) (state_of paths self.old)) result (state_of paths self.new) }
        ensures kept { Unmoved self.old self.new }
        ensures room { (n : ℕ) → Fits n self.old → Fits n self.new }
        ensures memory { NoMemory result }
    {
        if self.store.clear(a.root, a.offset, cells) {
            return Ok(());
        }
        if self.store.is_live(a.root) {
            return Err(Stop::Stuck);
        }
        Err(Stop::Fault(8))
    }

    /// The object of a number. Fault 7 for nil, fault 8 where it is disposed of.
    #[inline(always)]
    pub(crate) fn object_at(&self, number: u64) -> Result<Object, Stop>
        ensures row { (paths : ℕ → Steps) → Agrees (memory.object_at number (state_of paths self.now)) result (state_of paths self.now) }
        ensures memory { NoMemory result }
    {
        if number == 0 {
            return Err(Stop::Fault(7));
        }
        let index = number - 1;
        match self.objects.get(index as usize) {
            Some(object) => {
                if self.store.is_live(object.root) {
                    return Ok(*object);
                }
                Err(Stop::Fault(8))
            }
            None => Err(Stop::Stuck),
        }
    }

    /// The place so many cells further, where a cell may stand.
    #[inline(always)]
    pub(crate) fn reach(&self, a: Address, cells: u32) -> Result<Address, Stop>
        ensures row { (paths : ℕ → Steps) → Agrees (memory.reach a cells (state_of paths self.now)) result (state_of paths self.now) }
        ensures memory { NoMemory result }
    {
        match a.offset.checked_add(cells) {
            Some(offset) => Ok(Address {
                root: a.root,
                offset,
            }),
            None => {
                if self.store.is_live(a.root) {
                    return Err(Stop::Stuck);
                }
                Err(Stop::Fault(8))
            }
        }
    }

    /// So many cells from a reference on, as an operand.
    pub(crate) fn cells_of(&self, a: Address, cells: u32) -> Result<Cells, Stop>
        ensures row { (paths : ℕ → Steps) → Agrees (memory.cells_of a cells (state_of paths self.now)) result (state_of paths self.now) }
    {
        match self.store.part(a.root, a.offset, cells) {
            Some(found) => match Cells::of(self.alloc, found) {
                Ok(copied) => Ok(copied),
                Err(Memory) => Err(Stop::Memory),
            },
            None => {
                if self.store.is_live(a.root) {
                    return Err(Stop::Stuck);
                }
                Err(Stop::Fault(8))
            }
        }
    }
}
