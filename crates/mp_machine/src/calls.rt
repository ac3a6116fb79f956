// Rows that call, return and leave (ISO 7185, 6.6, 6.8.2.3, 6.8.2.4).
ghost use Rattle.std.specs.Prelude.{◌≡◌, ◌∷◌, ◌++◌, [], ◌+◌, ◌-◌, ◌^◌, ◌<◌, ◌≤◌, IfOk, OnOk, length, option_copied, reverse, slice_get, true, vec_capacity, vec_len, ℕ};
ghost use Rattle.mp_machine.specs.Blocks.{Path as Steps};
ghost use Rattle.mp_base.specs.declared.limits.TheConstants.{CELL_LIMIT};
ghost use Rattle.mp_code.specs.declared.check.TheConstants.{OPERAND_LIMIT};
ghost use Rattle.mp_memory.specs.Roots.{roots_of};
ghost use Rattle.mp_machine.specs.CallRows as call;
ghost use Rattle.mp_machine.specs.Loads.{paths_of};
ghost use Rattle.mp_machine.specs.Operands as action;
ghost use Rattle.mp_machine.specs.Outcomes.{Done};
ghost use Rattle.mp_machine.specs.Routines.{routine_in};
ghost use Rattle.mp_machine.specs.Shown.{Agrees, IsLoaded, Fits, NoMemory, Sound, Unmoved, IsMissing, WhereMissing, is_among, all_cells, returned_with, state_of};
ghost use Rattle.mp_machine.specs.States.{cells_while, first_ordinal, object_cells};

use crate::activations::Activation;
use crate::addresses::Address;
use crate::codes::LoadedBlocks;
use crate::objects::Object;
use crate::operands::{Cells, Operand};
use crate::processor::{Processor, Stop};
use mp_base::{ACTIVATION_LIMIT, CELL_LIMIT, Memory, Path};
use mp_code::{Code, OPERAND_LIMIT};
use mp_memory::{Cell, Store};
use std::alloc::Global;

// The cells of operands; a block has as many as it holds.
fn cells_of_all(alloc: Global, operands: &[Operand]) -> Result<Cells, Memory>
    ensures { IfOk result (λ cells. cells ≡ all_cells operands.now) }
{
    let mut cells = Cells::with_capacity(alloc, operands.len())?;
    'operands: for operand in operands {
        match operand {
            Operand::One(cell) => cells.push(cell.copy())?,
            Operand::Block(block) => cells.append(block.get())?,
        }
    }
    Ok(cells)
}

// The place of the first instruction.
pub(crate) fn first_place(code: &Code) -> u32
    ensures { result ≡ first_ordinal code.now }
{
    match code.instructions().get(0) {
        Some(instruction) => instruction.ordinal,
        None => 0,
    }
}

// The cells of an object, none where it is disposed of.
fn cells_while_live(store: &Store, object: &Object) -> u32
    ensures { result ≡ cells_while (roots_of store.now object.now.root) object.now.cells }
{
    if store.is_live(object.root) {
        object.cells
    } else {
        0
    }
}

// The cells of the objects that are not disposed of.
fn cells_of_objects(store: &Store, objects: &Vec<Object>) -> u128
    ensures value { result ≡ object_cells (roots_of store.now) objects.now.items }
    ensures bound { result < 2 ^ 96 }
{
    let mut cells = 0u128;
    'objects: for i in 0..objects.len() {
        cells += u128::from(cells_while_live(store, &objects[i]));
    }
    cells
}

/// A procedural value: the number of its block, and that of its static parent.
#[derive(Clone, Copy)]
struct Routine {
    block: u64,
    act: u64,
}

fn routine_of(operand: &Operand) -> Option<Routine>
    ensures { result ≡ routine_in operand.now }
{
    match operand {
        Operand::One(Cell::Code { block, act }) => Some(Routine {
            block: *block,
            act: *act,
        }),
        _ => None,
    }
}

// Whether the activation of the number is among these.
fn lives(older: &[Activation], number: u64) -> bool
    ensures { result ≡ is_among number (reverse older.now) }
{
    let mut k = older.len();
    'outward: while k > 0 {
        k -= 1;
        if older[k].number == number {
            return true;
        }
    }
    false
}

// The block has no code.
fn missing(path: &Path) -> Stop
    ensures { IsMissing path.now result }
{
    match path.copy() {
        Ok(path) => Stop::Missing(path),
        Err(Memory) => Stop::Memory,
    }
}

impl Processor {
    /// The cells of so many operands, those of the first one first.
    pub(crate) fn take_all(&mut self, operands: u32) -> Result<Cells, Stop>
        requires own { self.old.newest.below ≤ vec_len self.old.operands }
        ensures row { (paths : ℕ → Steps) → Agrees (action.take_all operands (state_of paths self.old)) result (state_of paths self.new) }
        ensures kept { Unmoved self.old self.new }
        ensures present { WhereMissing result ⊥ }
    {
        let count = operands as usize;
        let have = self.operands.len();
        if have.saturating_sub(self.newest.below) < count {
            return Err(Stop::Stuck);
        }
        let low = have - count;
        let cells = match cells_of_all(self.alloc, &self.operands[low..]) {
            Ok(cells) => cells,
            Err(Memory) => return Err(Stop::Memory),
        };
        self.operands.truncate(low);
        Ok(cells)
    }

    /// The cells of the objects that are not disposed of.
    pub(crate) fn object_cells(&self) -> u128
        ensures value { result ≡ object_cells (roots_of self.now.store) self.now.objects.items }
        ensures bound { result < 2 ^ 96 }
    {
        cells_of_objects(&self.store, &self.objects)
    }

    /// An activation of the block, which begins with these cells. Limit 1 on live activations comes before limit 2 on live
    /// cells. There is room then for as many operands as code may have, so that no instruction wants memory to put one.
    #[tactic(auto, using(crate::proofs::KeptLemmas::sound_kept, crate::proofs::KeptLemmas::loaded_kept))]
    pub(crate) fn enter(
        &mut self,
        code: &Code,
        block: usize,
        parent: u64,
        cells: &Cells,
    ) -> Result<(), Stop>
        requires sound { Sound self.old }
        requires fewer { self.old.store.next < 2 ^ 64 - 1 }
        ensures row { (paths : ℕ → Steps) → Agrees (call.enter code.now (paths block) parent cells.now (state_of paths self.old)) result (state_of paths self.new) }
        ensures sound { OnOk result (Sound self.new) }
        ensures loaded { (n : ℕ) → block < n → IsLoaded n self.old → IsLoaded n self.new }
        ensures present { WhereMissing result ⊥ }
    {
        if cells.len() > code.frame() as usize {
            return Err(Stop::Stuck);
        }
        if self.older.len() + 1 >= ACTIVATION_LIMIT {
            return Err(Stop::Limit(1));
        }
        if u128::from(self.used) + self.object_cells() + u128::from(code.counted())
            > u128::from(CELL_LIMIT)
        {
            return Err(Stop::Limit(2));
        }
        match self.make_room(OPERAND_LIMIT as usize) {
            Ok(()) => {}
            Err(Memory) => return Err(Stop::Memory),
        }
        self.begin_block(code, block, parent, cells)
    }

    // The activation begins: there is room for it and for its operands.
    fn begin_block(
        &mut self,
        code: &Code,
        block: usize,
        parent: u64,
        cells: &Cells,
    ) -> Result<(), Stop>
        requires sound { Sound self.old }
        requires fewer { self.old.store.next < 2 ^ 64 - 1 }
        requires fit { length cells.now ≤ code.now.frame }
        requires room { self.old.used + code.now.counted ≤ CELL_LIMIT }
        requires spare { vec_len self.old.operands + OPERAND_LIMIT ≤ vec_capacity self.old.operands }
        ensures row { (paths : ℕ → Steps) → Agrees (Done tt (call.entered code.now (paths block) parent cells.now (state_of paths self.old))) result (state_of paths self.new) }
        ensures sound { OnOk result (Sound self.new) }
        ensures loaded { (n : ℕ) → block < n → IsLoaded n self.old → IsLoaded n self.new }
        ensures present { WhereMissing result ⊥ }
    {
        let number = match self.store.add(code.frame()) {
            Ok(number) => number,
            Err(Memory) => return Err(Stop::Memory),
        };
        let _ = self.store.write(number, 0, cells.get());
        let Ok(_) = self.older.push(self.newest) else {
            return Err(Stop::Memory);
        };
        self.newest = Activation {
            number,
            block,
            parent,
            from: self.at,
            cells: code.counted(),
            below: self.operands.len(),
            next: 0,
        };
        self.at = first_place(code);
        self.used += u64::from(code.counted());
        Ok(())
    }

    /// The newest activation ends, and its cells are dropped.
    fn end_newest(&mut self)
        requires sound { Sound self.old }
        requires some { 0 < length self.old.older.items }
        ensures row { (paths : ℕ → Steps) → call.leave_newest (state_of paths self.old) ≡ Done tt (state_of paths self.new) }
        ensures sound { Sound self.new }
        ensures room { (n : ℕ) → Fits n self.old → Fits n self.new }
        ensures loaded { (n : ℕ) → IsLoaded n self.old → IsLoaded n self.new }
        ensures older { self.old.older.items ≡ self.new.older.items ++ self.new.newest ∷ [] }
    {
        if let Some(caller) = self.older.pop() {
            let _ = self.store.drop_root(self.newest.number);
            self.operands.truncate(self.newest.below);
            self.at = self.newest.from;
            self.used -= u64::from(self.newest.cells);
            self.newest = caller;
        }
    }

    /// none : none, or the result of a function. The activation ends, and the program where it is the last one. Fault 9
    /// where the result is undefined; it comes after the activation has ended.
    pub(crate) fn end(&mut self, cell: Option<u32>) -> Result<(), Stop>
        requires sound { Sound self.old }
        requires room { Fits 1 self.old }
        ensures row { (paths : ℕ → Steps) → Agrees (call.«return» cell (state_of paths self.old)) result (state_of paths self.new) }
        ensures sound { OnOk result (Sound self.new) }
        ensures loaded { (n : ℕ) → IsLoaded n self.old → IsLoaded n self.new }
        ensures memory { NoMemory result }
    {
        if self.older.is_empty() {
            return Err(Stop::Ended);
        }
        match cell {
            None => {
                self.end_newest();
                Ok(())
            }
            Some(offset) => self.end_with(offset),
        }
    }

    // The newest activation, of a function, ends.
    fn end_with(&mut self, offset: u32) -> Result<(), Stop>
        requires sound { Sound self.old }
        requires some { 0 < length self.old.older.items }
        requires room { Fits 1 self.old }
        ensures row { (paths : ℕ → Steps) → Agrees (returned_with self.old.newest.number offset (state_of paths self.old)) result (state_of paths self.new) }
        ensures sound { OnOk result (Sound self.new) }
        ensures loaded { (n : ℕ) → IsLoaded n self.old → IsLoaded n self.new }
        ensures memory { NoMemory result }
    {
        let x = self.cell_of(Address {
            root: self.newest.number,
            offset,
        })?;
        self.end_newest();
        match x {
            Cell::Undef => Err(Stop::Fault(9)),
            x => {
                self.put_cell(x);
                Ok(())
            }
        }
    }

    /// operands : none. An activation of the block, whose static parent is the activation of the depth around this one. A
    /// block without code changes nothing.
    pub(crate) fn call(
        &mut self,
        codes: &LoadedBlocks,
        depth: u32,
        path: &Path,
        operands: u32,
    ) -> Result<(), Stop>
        requires sound { Sound self.old }
        requires fewer { self.old.store.next < 2 ^ 64 - 1 }
        ensures row { Agrees (call.call codes.now depth path.now operands (state_of (paths_of codes.now) self.old)) result (state_of (paths_of codes.now) self.new) }
        ensures sound { OnOk result (Sound self.new) }
        ensures loaded { IsLoaded (length codes.now) self.old → IsLoaded (length codes.now) self.new }
        ensures unchanged { WhereMissing result (self.new ≡ self.old) }
    {
        let parent = self.activation_at(codes, depth)?;
        let Some((place, code)) = codes.find_code(path) else {
            return Err(missing(path));
        };
        let cells = self.take_all(operands)?;
        self.enter(code, place, parent, &cells)
    }

    // Activations end until the one of the number, which lives, is the newest.
    fn end_until(&mut self, number: u64)
        requires sound { Sound self.old }
        requires lives { is_among number (self.old.newest ∷ reverse self.old.older.items) ≡ true }
        ensures row { (paths : ℕ → Steps) → state_of paths self.new ≡ call.left_until number (state_of paths self.old) (state_of paths self.old).frames }
        ensures sound { Sound self.new }
        ensures loaded { (n : ℕ) → IsLoaded n self.old → IsLoaded n self.new }
    {
        'ends: while self.newest.number != number {
            self.end_newest();
        }
    }

    /// none : none. Ends activations until that of the depth is the newest, and goes on at its label.
    pub(crate) fn leave(&mut self, codes: &LoadedBlocks, depth: u32, label: u32) -> Result<(), Stop>
        requires sound { Sound self.old }
        requires loaded { IsLoaded (length codes.now) self.old }
        ensures row { Agrees (call.leave codes.now depth label (state_of (paths_of codes.now) self.old)) result (state_of (paths_of codes.now) self.new) }
        ensures sound { OnOk result (Sound self.new) }
        ensures loaded { IsLoaded (length codes.now) self.old → IsLoaded (length codes.now) self.new }
        ensures memory { NoMemory result }
    {
        let number = self.activation_at(codes, depth)?;
        self.end_until(number);
        match codes.label_at(self.newest.block, label) {
            Some(index) => {
                self.go_on_without_operands(index);
                Ok(())
            }
            None => Err(Stop::Stuck),
        }
    }

    // The newest activation goes on at the index, without operands.
    fn go_on_without_operands(&mut self, index: u32)
        requires sound { Sound self.old }
        ensures row { (paths : ℕ → Steps) → action.change_newest (λ f. record f { next = index; operands = [] }) (state_of paths self.old) ≡ Done tt (state_of paths self.new) }
        ensures sound { Sound self.new }
        ensures loaded { (n : ℕ) → IsLoaded n self.old → IsLoaded n self.new }
    {
        let own = self.newest.below;
        self.operands.truncate(own);
        self.newest.next = index as usize;
    }

    // The block of a number.
    fn path_of(&self, block: u64) -> Option<&Path>
        ensures { option_copied result ≡ slice_get self.now.blocks.items block }
    {
        self.blocks.get(block as usize)
    }

    fn has_activation(&self, number: u64) -> bool
        ensures { result ≡ is_among number (self.now.newest ∷ reverse self.now.older.items) }
    {
        self.newest.number == number || lives(&self.older, number)
    }

    /// Proc operands : none. An activation of the block of the procedural value, with its static parent. A block without code
    /// changes nothing.
    pub(crate) fn call_by(&mut self, codes: &LoadedBlocks, operands: u32) -> Result<(), Stop>
        requires sound { Sound self.old }
        requires fewer { self.old.store.next < 2 ^ 64 - 1 }
        ensures row { Agrees (call.call_by codes.now operands (state_of (paths_of codes.now) self.old)) result (state_of (paths_of codes.now) self.new) }
        ensures sound { OnOk result (Sound self.new) }
        ensures loaded { IsLoaded (length codes.now) self.old → IsLoaded (length codes.now) self.new }
        ensures unchanged { WhereMissing result (self.new ≡ self.old) }
    {
        let count = operands as usize;
        let have = self.operands.len();
        if have.saturating_sub(self.newest.below) <= count {
            return Err(Stop::Stuck);
        }
        let low = have - count;
        let Some(routine) = routine_of(&self.operands[low - 1]) else {
            return Err(Stop::Stuck);
        };
        let Some(path) = self.path_of(routine.block) else {
            return Err(Stop::Stuck);
        };
        if !self.has_activation(routine.act) {
            return Err(Stop::Stuck);
        }
        let Some((place, code)) = codes.find_code(path) else {
            return Err(missing(path));
        };
        let cells = match cells_of_all(self.alloc, &self.operands[low..]) {
            Ok(cells) => cells,
            Err(Memory) => return Err(Stop::Memory),
        };
        self.operands.truncate(low - 1);
        let parent = routine.act;
        self.enter(code, place, parent, &cells)
    }
}
