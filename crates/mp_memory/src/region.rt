// The cells of one root.
ghost use Rattle.std.specs.Prelude.{◌≡◌, ◌+◌, ◌≤◌, ◌<◌, ◌∷◌, [], IfOk, List, Some, length, nat_le, option_copied, replicate, slice_get};
ghost use Rattle.mp_memory.specs.declared.cells.Cell.TheVariants.{Undef};
ghost use Rattle.mp_memory.specs.Roots.{cells_at, got, is_got, laid_over, new_or_old, with_cells};

use crate::cells::Cell;
use mp_base::Memory;
use std::alloc::Global;
use std::marker::Model;

/// The cells of one root, of which there are always as many as at first.
#[derive(Drop)]
pub(crate) struct Region {
    cells: Vec<Cell>,
}

impl Model for Region {
    ghost use Rattle.std.specs.Prelude.{List};
    ghost use Rattle.mp_memory.specs.declared.cells.Cell.{Cell};

    ghost Value = { List Cell };

    ghost view = { λ region. region.cells.items };
}

fn undefined_cells(alloc: Global, count: u32) -> Result<Vec<Cell>, Memory>
    ensures { IfOk result (λ cells. cells.items ≡ replicate count Undef) }
{
    let mut cells = Vec::with_capacity(alloc, count as usize)?;
    'cells: for _ in 0..count {
        cells.push(Cell::Undef)?;
    }
    Ok(cells)
}

// Whether so many cells from the offset on are there.
fn fits(cells: &Vec<Cell>, offset: u32, count: usize) -> bool
    ensures { result ≡ nat_le (offset + count) (length cells.now.items) }
{
    let offset = offset as usize;
    offset <= cells.len() && count <= cells.len() - offset
}

fn lay_over(cells: &mut Vec<Cell>, offset: usize, new: &[Cell])
    requires { offset + length new.now ≤ length cells.old.items }
    ensures { cells.new.items ≡ laid_over cells.old.items offset new.now }
{
    'cells: for i in 0..new.len() {
        cells[offset + i] = new[i].copy();
    }
}

fn set(cells: &mut Vec<Cell>, offset: usize, cell: Cell)
    requires { offset < length cells.old.items }
    ensures { cells.new.items ≡ laid_over cells.old.items offset (cell ∷ []) }
{
    cells[offset] = cell;
}

fn clear(cells: &mut Vec<Cell>, offset: usize, count: usize)
    requires { offset + count ≤ length cells.old.items }
    ensures { cells.new.items ≡ laid_over cells.old.items offset (replicate count Undef) }
{
    'cells: for i in 0..count {
        cells[offset + i] = Cell::Undef;
    }
}

impl Region {
    pub fn new(alloc: Global, count: u32) -> Result<Region, Memory>
        ensures { IfOk result (λ region. region ≡ replicate count Undef) }
    {
        Ok(Region {
            cells: undefined_cells(alloc, count)?,
        })
    }

    pub fn get(&self, offset: u32) -> Option<&Cell>
        ensures { option_copied result ≡ slice_get self.now offset }
    {
        self.cells.get(offset as usize)
    }

    pub fn part(&self, offset: u32, count: u32) -> Option<&[Cell]>
        ensures { option_copied result ≡ got (cells_at (Some self.now) offset count) }
    {
        if !fits(&self.cells, offset, count as usize) {
            return None;
        }
        let offset = offset as usize;
        Some(&self.cells[offset..offset + count as usize])
    }

    pub fn write(&mut self, offset: u32, new: &[Cell]) -> bool
        ensures written { result ≡ is_got (with_cells (Some self.old) offset new.now) }
        ensures cells { Some self.new ≡ new_or_old (with_cells (Some self.old) offset new.now) (Some self.old) }
    {
        if !fits(&self.cells, offset, new.len()) {
            return false;
        }
        lay_over(&mut self.cells, offset as usize, new);
        true
    }

    pub fn set(&mut self, offset: u32, cell: Cell) -> bool
        ensures written { result ≡ is_got (with_cells (Some self.old) offset (cell ∷ [])) }
        ensures cells { Some self.new ≡ new_or_old (with_cells (Some self.old) offset (cell ∷ [])) (Some self.old) }
    {
        if !fits(&self.cells, offset, 1) {
            return false;
        }
        set(&mut self.cells, offset as usize, cell);
        true
    }

    pub fn clear(&mut self, offset: u32, count: u32) -> bool
        ensures written { result ≡ is_got (with_cells (Some self.old) offset (replicate count Undef)) }
        ensures cells { Some self.new ≡ new_or_old (with_cells (Some self.old) offset (replicate count Undef)) (Some self.old) }
    {
        if !fits(&self.cells, offset, count as usize) {
            return false;
        }
        clear(&mut self.cells, offset as usize, count as usize);
        true
    }
}
