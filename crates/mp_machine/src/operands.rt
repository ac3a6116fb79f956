ghost use Rattle.std.specs.Prelude.{◌≡◌, ◌∷◌, ◌++◌, [], IfOk, OnOk, length};
ghost use Rattle.mp_machine.specs.ValueRows as value;

use mp_base::Memory;
use mp_memory::Cell;
use std::alloc::Global;
use std::marker::Model;

/// The cells of a block operand. To a contract they are a list.
#[derive(Drop)]
pub struct Cells {
    items: Vec<Cell>,
}

impl Model for Cells {
    ghost use Rattle.std.specs.Prelude.{List};
    ghost use Rattle.mp_memory.specs.declared.cells.Cell.{Cell};

    ghost Value = { List Cell };

    ghost view = { λ cells. cells.items.items };
}

impl Cells {
    /// A copy of these cells.
    pub fn of(alloc: Global, cells: &[Cell]) -> Result<Cells, Memory>
        ensures { IfOk result (λ made. made ≡ cells.now) }
    {
        let mut items = Vec::with_capacity(alloc, cells.len())?;
        'cells: for cell in cells {
            items.push(cell.copy())?;
        }
        Ok(Cells { items })
    }

    /// The characters of a string, each as its ordinal number.
    pub fn of_characters(alloc: Global, bytes: &[u8]) -> Result<Cells, Memory>
        ensures { IfOk result (λ made. made ≡ value.character_cells bytes.now) }
    {
        let mut items = Vec::with_capacity(alloc, bytes.len())?;
        'bytes: for byte in bytes {
            items.push(Cell::Int(i64::from(*byte)))?;
        }
        Ok(Cells { items })
    }

    /// No cells, with room for so many.
    pub fn with_capacity(alloc: Global, count: usize) -> Result<Cells, Memory>
        ensures { IfOk result (λ made. made ≡ []) }
    {
        Ok(Cells {
            items: Vec::with_capacity(alloc, count)?,
        })
    }

    /// One cell more, at the end.
    pub fn push(&mut self, cell: Cell) -> Result<(), Memory>
        ensures { OnOk result (self.new ≡ self.old ++ cell ∷ []) }
    {
        self.items.push(cell)?;
        Ok(())
    }

    /// These cells more, at the end.
    pub fn append(&mut self, cells: &[Cell]) -> Result<(), Memory>
        ensures { OnOk result (self.new ≡ self.old ++ cells.now) }
    {
        'cells: for cell in cells {
            self.items.push(cell.copy())?;
        }
        Ok(())
    }

    /// How many cells there are.
    pub fn len(&self) -> usize
        ensures { result ≡ length self.now }
    {
        self.items.len()
    }

    /// The cells themselves.
    pub fn get(&self) -> &[Cell]
        ensures { result.now ≡ self.now }
    {
        self.items.as_slice()
    }
}

/// An operand of the machine: a cell, or a block of cells.
#[derive(Drop)]
pub enum Operand {
    One(Cell),
    Block(Cells),
}
