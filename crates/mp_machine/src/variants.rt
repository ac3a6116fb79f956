// Rows on the tags of variants (ISO 7185, 6.4.3.3, 6.5.3.3).
ghost use Rattle.std.specs.Prelude.{◌≡◌, ◌&&◌, ℕ};
ghost use Rattle.mp_machine.specs.Blocks.{Path as Steps};
ghost use Rattle.mp_machine.specs.Numbers.{one_of};
ghost use Rattle.mp_machine.specs.Shown.{Agrees, Fits, NoMemory, Unmoved, state_of};
ghost use Rattle.mp_machine.specs.VariableRows as variable;

use crate::addresses::Address;
use crate::processor::{Processor, Stop};
use mp_code::Group;
use mp_memory::Cell;

fn is_one_of(n: i64, constants: &[i64]) -> bool
    ensures { result ≡ one_of n constants.now }
{
    'constants: for constant in constants {
        if n == *constant {
            return true;
        }
    }
    false
}

// Whether the tag has one of the values.
fn is_tag_of(constants: &[i64], tag: &Cell) -> bool
    ensures { result ≡ variable.is_tag_of constants.now tag.now }
{
    match tag {
        Cell::Int(n) => is_one_of(*n, constants),
        _ => false,
    }
}

// Whether the old and the new tag select the same variant.
fn is_same_variant(groups: &[Group], old: &Cell, new: &Cell) -> bool
    ensures { result ≡ variable.same_variant groups.now old.now new.now }
{
    'groups: for group in groups {
        if is_tag_of(group.constants.as_slice(), old)
            && is_tag_of(group.constants.as_slice(), new)
        {
            return true;
        }
    }
    false
}

impl Processor {
    /// The tag becomes x, and so many cells behind it undefined.
    #[inline(always)]
    fn set_tag(&mut self, a: Address, x: Cell, cells: u32) -> Result<(), Stop>
        ensures row { (paths : ℕ → Steps) → Agrees (variable.set_tag a x cells (state_of paths self.old)) result (state_of paths self.new) }
        ensures kept { Unmoved self.old self.new }
        ensures room { (n : ℕ) → Fits n self.old → Fits n self.new }
        ensures memory { NoMemory result }
    {
        self.set_cell(a, x)?;
        let place = self.reach(a, 1)?;
        self.clear_cells(place, cells)
    }

    /// Ref : Ref. Fault 10 where the tag at the offset is none of the constants.
    #[inline(always)]
    pub(crate) fn must_be_active(&mut self, offset: u32, constants: &[i64]) -> Result<(), Stop>
        ensures row { (paths : ℕ → Steps) → Agrees (variable.active offset constants.now (state_of paths self.old)) result (state_of paths self.new) }
        ensures kept { Unmoved self.old self.new }
        ensures memory { NoMemory result }
    {
        let a = self.take_address()?;
        let place = self.reach(a, offset)?;
        let tag = self.cell_of(place)?;
        if !is_tag_of(constants, &tag) {
            return Err(Stop::Fault(10));
        }
        self.put_reference(a);
        Ok(())
    }

    /// Ref : Ref. Where the tag at the offset is none of the constants, it becomes `constant`, and so many cells behind it undefined.
    #[inline(always)]
    pub(crate) fn select(
        &mut self,
        offset: u32,
        constant: i64,
        constants: &[i64],
        cells: u32,
    ) -> Result<(), Stop>
        ensures row { (paths : ℕ → Steps) → Agrees (variable.select offset constant constants.now cells (state_of paths self.old)) result (state_of paths self.new) }
        ensures kept { Unmoved self.old self.new }
        ensures memory { NoMemory result }
    {
        let a = self.take_address()?;
        let place = self.reach(a, offset)?;
        let tag = self.cell_of(place)?;
        if is_tag_of(constants, &tag) {
            self.put_reference(a);
            return Ok(());
        }
        self.set_tag(place, Cell::Int(constant), cells)?;
        self.put_reference(a);
        Ok(())
    }

    /// Ref i : none. The tag becomes i; where its old value selects another variant, so many cells behind it become undefined.
    #[inline(always)]
    pub(crate) fn tag(&mut self, groups: &[Group], cells: u32) -> Result<(), Stop>
        ensures row { (paths : ℕ → Steps) → Agrees (variable.tag groups.now cells (state_of paths self.old)) result (state_of paths self.new) }
        ensures kept { Unmoved self.old self.new }
        ensures memory { NoMemory result }
    {
        let x = self.take_cell()?;
        let a = self.take_address()?;
        let old = self.cell_of(a)?;
        if is_same_variant(groups, &old, &x) {
            return self.set_cell(a, x);
        }
        self.set_tag(a, x, cells)
    }
}
