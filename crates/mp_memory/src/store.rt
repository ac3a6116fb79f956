ghost use Rattle.std.specs.Prelude.{◌≡◌, ◌+◌, ◌-◌, ◌^◌, ◌<◌, ◌∷◌, [], ℕ, IfOk, OnErr, OnOk, Some, None, is_some, option_copied, replicate};
ghost use Rattle.mp_memory.specs.declared.cells.Cell.TheVariants.{Undef};
ghost use Rattle.mp_memory.specs.Roots.{cell_at, cells_at, got, is_got, roots_of, with_cells, with_cells_at, with_root};

use crate::cells::Cell;
use crate::region::Region;
use mp_base::Memory;
use std::alloc::Global;
use std::collections::BTreeMap;
use std::marker::Model;

/// The cells of a run, under the roots that live: those of activations, of objects, and that of the required files. A
/// root's number is never given again. To a contract it is its live roots with their cells, and the number that the
/// next root will have.
#[derive(Drop)]
pub struct Store {
    alloc: Global,
    live: BTreeMap<u64, Region>,
    next: u64,
}

impl Model for Store {
    ghost use Rattle.mp_memory.specs.Roots.{Contents, HasFreshNumbers};

    ghost Value = { Contents };

    ghost view = { λ store. record { entries = store.live.entries; next = store.next } };

    ghost invariant = { λ store. HasFreshNumbers (record { entries = store.live.entries; next = store.next }) };
}

impl Store {
    /// A store without roots; the first one will have the number 0.
    pub fn new(alloc: Global) -> Store
        ensures roots { (q : ℕ) → roots_of result q ≡ None }
        ensures next { result.next ≡ 0 }
    {
        Store {
            alloc,
            live: BTreeMap::new(alloc),
            next: 0,
        }
    }

    /// A new root of so many undefined cells, and its number.
    pub fn add(&mut self, cells: u32) -> Result<u64, Memory>
        requires { self.old.next < 2 ^ 64 - 1 }
        ensures number { IfOk result (λ root. root ≡ self.old.next) }
        ensures fresh { IfOk result (λ root. roots_of self.old root ≡ None) }
        ensures roots { IfOk result (λ root. (q : ℕ) → roots_of self.new q ≡ with_root (roots_of self.old) root (Some (replicate cells Undef)) q) }
        ensures next { OnOk result (self.new.next ≡ self.old.next + 1) }
        ensures err { OnErr result (self.new ≡ self.old) }
    {
        let number = self.next;
        let region = Region::new(self.alloc, cells)?;
        self.live.insert(number, region)?;
        self.next = number + 1;
        Ok(number)
    }

    /// How many roots were given: the number of the next one.
    pub fn given(&self) -> u64
        ensures { result ≡ self.now.next }
    {
        self.next
    }

    /// Whether the root lives: it was given and not dropped.
    pub fn is_live(&self, root: u64) -> bool
        ensures { result ≡ is_some (roots_of self.now root) }
    {
        self.live.get(&root).is_some()
    }

    /// The cell at the offset under the root, exactly where it is there.
    pub fn get(&self, root: u64, offset: u32) -> Option<&Cell>
        ensures { option_copied result ≡ got (cell_at (roots_of self.now root) offset) }
    {
        match self.live.get(&root) {
            Some(region) => region.get(offset),
            None => None,
        }
    }

    /// So many cells from the offset on, exactly where they are there.
    pub fn part(&self, root: u64, offset: u32, count: u32) -> Option<&[Cell]>
        ensures { option_copied result ≡ got (cells_at (roots_of self.now root) offset count) }
    {
        match self.live.get(&root) {
            Some(region) => region.part(offset, count),
            None => None,
        }
    }

    /// Sets the cell at the offset under the root, exactly where it is there.
    pub fn set(&mut self, root: u64, offset: u32, cell: Cell) -> bool
        ensures set { result ≡ is_got (with_cells (roots_of self.old root) offset (cell ∷ [])) }
        ensures roots { (q : ℕ) → roots_of self.new q ≡ with_cells_at (roots_of self.old) root offset (cell ∷ []) q }
        ensures next { self.new.next ≡ self.old.next }
    {
        match self.live.get_mut(&root) {
            Some(region) => region.set(offset, cell),
            None => false,
        }
    }

    /// Copies these cells over those from the offset on, exactly where all of them are there.
    pub fn write(&mut self, root: u64, offset: u32, new: &[Cell]) -> bool
        ensures written { result ≡ is_got (with_cells (roots_of self.old root) offset new.now) }
        ensures roots { (q : ℕ) → roots_of self.new q ≡ with_cells_at (roots_of self.old) root offset new.now q }
        ensures next { self.new.next ≡ self.old.next }
    {
        match self.live.get_mut(&root) {
            Some(region) => region.write(offset, new),
            None => false,
        }
    }

    /// Makes so many cells from the offset on undefined, exactly where all of them are there.
    pub fn clear(&mut self, root: u64, offset: u32, count: u32) -> bool
        ensures cleared { result ≡ is_got (with_cells (roots_of self.old root) offset (replicate count Undef)) }
        ensures roots { (q : ℕ) → roots_of self.new q ≡ with_cells_at (roots_of self.old) root offset (replicate count Undef) q }
        ensures next { self.new.next ≡ self.old.next }
    {
        match self.live.get_mut(&root) {
            Some(region) => region.clear(offset, count),
            None => false,
        }
    }

    /// Drops the root with its cells, exactly where it lives.
    pub fn drop_root(&mut self, root: u64) -> bool
        ensures dropped { result ≡ is_some (roots_of self.old root) }
        ensures roots { (q : ℕ) → roots_of self.new q ≡ with_root (roots_of self.old) root None q }
        ensures next { self.new.next ≡ self.old.next }
    {
        self.live.remove(&root).is_some()
    }
}
