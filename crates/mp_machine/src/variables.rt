// Rows that form references, and read and set cells under them (ISO 7185, 6.5, 6.8.2.2).
ghost use Rattle.std.specs.Prelude.{◌≡◌, ◌+◌, ◌*◌, ◌-ℤ◌, ◌≤ℤ◌, ◌<◌, ◌≤◌, ◌^◌, IfNone, IfSome, ℕ};
ghost use Rattle.mp_machine.specs.Blocks.{Path as Steps};
ghost use Rattle.mp_machine.specs.Memory as memory;
ghost use Rattle.mp_machine.specs.Numbers.{natural};
ghost use Rattle.mp_machine.specs.Shown.{Agrees, Fits, NoMemory, Unmoved, state_of};
ghost use Rattle.mp_machine.specs.ValueRows as value;
ghost use Rattle.mp_machine.specs.VariableRows as variable;

use crate::addresses::Address;
use crate::operands::{Cells, Operand};
use crate::processor::{Processor, Stop};
use mp_base::Memory;
use mp_code::RequiredFile;
use mp_memory::Cell;

fn file_offset(file: RequiredFile) -> u32
    ensures { result ≡ variable.file_offset file }
{
    match file {
        RequiredFile::Input => 0,
        RequiredFile::Output => 2,
    }
}

// The offset of the component of an index, None where it has more than 32 bits.
fn far_offset(offset: u32, low: i64, i: i64, size: u32) -> Option<u64>
    requires { low ≤ℤ i }
    ensures some { IfSome result (λ far. far ≡ offset + natural (i -ℤ low) * size) }
    ensures none { IfNone result (2 ^ 32 ≤ offset + natural (i -ℤ low) * size) }
{
    let steps = (i128::from(i) - i128::from(low)) as u128;
    let far = u128::from(offset) + steps * u128::from(size);
    if far < 4_294_967_296 {
        return Some(far as u64);
    }
    None
}

impl Processor {
    /// A reference whose offset has 32 bits.
    #[inline(always)]
    fn put_far(&mut self, root: u64, offset: u64) -> Result<(), Stop>
        requires { Fits 1 self.old }
        ensures row { (paths : ℕ → Steps) → Agrees (variable.put_far (record { root = root; offset = offset }) (state_of paths self.old)) result (state_of paths self.new) }
        ensures kept { Unmoved self.old self.new }
        ensures memory { NoMemory result }
    {
        if offset >= 4_294_967_296 {
            return Err(Stop::Stuck);
        }
        self.put_reference(Address {
            root,
            offset: offset as u32,
        });
        Ok(())
    }

    /// none : Ref to the cell of `input` or `output`
    #[inline(always)]
    pub(crate) fn file_at(&mut self, file: RequiredFile) -> Result<(), Stop>
        requires { Fits 1 self.old }
        ensures row { (paths : ℕ → Steps) → Agrees (variable.file_at file (state_of paths self.old)) result (state_of paths self.new) }
        ensures kept { Unmoved self.old self.new }
        ensures memory { NoMemory result }
    {
        self.put_reference(Address {
            root: 0,
            offset: file_offset(file),
        });
        Ok(())
    }

    /// Ref : Ref so many cells further
    #[inline(always)]
    pub(crate) fn offset(&mut self, cells: u32) -> Result<(), Stop>
        ensures row { (paths : ℕ → Steps) → Agrees (variable.offset cells (state_of paths self.old)) result (state_of paths self.new) }
        ensures kept { Unmoved self.old self.new }
        ensures memory { NoMemory result }
    {
        let a = self.take_address()?;
        self.put_far(a.root, u64::from(a.offset) + u64::from(cells))
    }

    /// Ref i : Ref to the component of the index. Fault 4 where it lies outside its bounds.
    #[inline(always)]
    pub(crate) fn index(&mut self, low: i64, high: i64, size: u32) -> Result<(), Stop>
        ensures row { (paths : ℕ → Steps) → Agrees (variable.index low high size (state_of paths self.old)) result (state_of paths self.new) }
        ensures kept { Unmoved self.old self.new }
        ensures memory { NoMemory result }
    {
        let i = self.take_number()?;
        let a = self.take_address()?;
        if i < low || i > high {
            return Err(Stop::Fault(4));
        }
        self.put_component(a, low, i, size)
    }

    #[inline(always)]
    fn put_component(&mut self, a: Address, low: i64, i: i64, size: u32) -> Result<(), Stop>
        requires room { Fits 1 self.old }
        requires inside { low ≤ℤ i }
        ensures row { (paths : ℕ → Steps) → Agrees (variable.put_far (memory.beyond a (natural (i -ℤ low) * size)) (state_of paths self.old)) result (state_of paths self.new) }
        ensures kept { Unmoved self.old self.new }
        ensures memory { NoMemory result }
    {
        match far_offset(a.offset, low, i, size) {
            Some(offset) => self.put_far(a.root, offset),
            None => Err(Stop::Stuck),
        }
    }

    /// Ptr : Ref to the object's first cell. Fault 7 for nil, fault 8 for a disposed object.
    #[inline(always)]
    pub(crate) fn follow(&mut self) -> Result<(), Stop>
        ensures row { (paths : ℕ → Steps) → Agrees (variable.follow (state_of paths self.old)) result (state_of paths self.new) }
        ensures kept { Unmoved self.old self.new }
        ensures memory { NoMemory result }
    {
        let pointer = self.take_pointer()?;
        let object = self.object_at(pointer)?;
        self.put_reference(Address {
            root: object.root,
            offset: 0,
        });
        Ok(())
    }

    /// Ref : its cell. Fault 8 for a disposed object, fault 9 for an undefined cell.
    #[inline(always)]
    pub(crate) fn load(&mut self) -> Result<(), Stop>
        ensures row { (paths : ℕ → Steps) → Agrees (variable.load (state_of paths self.old)) result (state_of paths self.new) }
        ensures kept { Unmoved self.old self.new }
        ensures memory { NoMemory result }
    {
        let a = self.take_address()?;
        let x = self.cell_of(a)?;
        match x {
            Cell::Undef => Err(Stop::Fault(9)),
            x => {
                self.put_cell(x);
                Ok(())
            }
        }
    }

    /// Ref x : none. The cell becomes x.
    #[inline(always)]
    pub(crate) fn store(&mut self) -> Result<(), Stop>
        ensures row { (paths : ℕ → Steps) → Agrees (variable.store (state_of paths self.old)) result (state_of paths self.new) }
        ensures kept { Unmoved self.old self.new }
        ensures memory { NoMemory result }
    {
        let x = self.take_cell()?;
        let a = self.take_address()?;
        self.set_cell(a, x)
    }

    /// Ref : none. So many cells from there become undefined.
    #[inline(always)]
    pub(crate) fn clear(&mut self, cells: u32) -> Result<(), Stop>
        ensures row { (paths : ℕ → Steps) → Agrees (variable.clear cells (state_of paths self.old)) result (state_of paths self.new) }
        ensures kept { Unmoved self.old self.new }
        ensures memory { NoMemory result }
    {
        let a = self.take_address()?;
        self.clear_cells(a, cells)
    }

    /// Ref block : none. The cells from there become those of the block.
    #[inline(always)]
    pub(crate) fn store_many(&mut self) -> Result<(), Stop>
        ensures row { (paths : ℕ → Steps) (cells : ℕ) → Agrees (variable.store_many cells (state_of paths self.old)) result (state_of paths self.new) }
        ensures kept { Unmoved self.old self.new }
        ensures memory { NoMemory result }
    {
        let xs = self.take_block()?;
        let a = self.take_address()?;
        self.set_cells(a, xs.get())
    }

    /// Ref : block of so many cells from there
    pub(crate) fn load_many(&mut self, cells: u32) -> Result<(), Stop>
        ensures row { (paths : ℕ → Steps) → Agrees (variable.load_many cells (state_of paths self.old)) result (state_of paths self.new) }
        ensures kept { Unmoved self.old self.new }
    {
        let a = self.take_address()?;
        let block = self.cells_of(a, cells)?;
        self.put(Operand::Block(block));
        Ok(())
    }

    /// none : block of characters
    pub(crate) fn characters(&mut self, bytes: &[u8]) -> Result<(), Stop>
        requires { Fits 1 self.old }
        ensures row { (paths : ℕ → Steps) → Agrees (value.chars bytes.now (state_of paths self.old)) result (state_of paths self.new) }
        ensures kept { Unmoved self.old self.new }
    {
        match Cells::of_characters(self.alloc, bytes) {
            Ok(block) => {
                self.put(Operand::Block(block));
                Ok(())
            }
            Err(Memory) => Err(Stop::Memory),
        }
    }
}
