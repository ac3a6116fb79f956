// What runs: live activations with their operands and cells, objects and files. Each function here is one line of the
// table's rows; the rows of the other files are made of these.
ghost use Rattle.std.specs.Prelude.{◌≡◌, ◌+◌, ◌^◌, ◌<◌, ◌≤◌, ℕ, suc, OnOk, vec_capacity, vec_len};
ghost use Rattle.mp_machine.specs.Blocks.{Path as Steps};
ghost use Rattle.mp_machine.specs.Operands as action;
ghost use Rattle.mp_machine.specs.Outcomes.{Done};
ghost use Rattle.mp_machine.specs.Steps.{begun};
ghost use Rattle.mp_machine.specs.Shown.{Agrees, Fits, NoMemory, Unmoved, state_of};

use crate::activations::Activation;
use crate::addresses::Address;
use crate::given_files::GivenFiles;
use crate::objects::Object;
use crate::operands::{Cells, Operand};
use mp_base::{Memory, Path};
use mp_memory::{Cell, MemberSet, Store};
use std::alloc::Global;

/// Why a row does not go on.
#[derive(Drop)]
pub(crate) enum Stop {
    Fault(u8),
    Limit(u8),
    Ended,
    /// The block that is called has no code.
    Missing(Path),
    /// The conditions of the table are not met.
    Stuck,
    Memory,
}

#[derive(Drop)]
pub(crate) struct Processor {
    pub alloc: Global,
    pub store: Store,
    /// The operands of all live activations, those of the newest last.
    pub operands: Vec<Operand>,
    pub newest: Activation,
    /// The other live activations, the oldest first.
    pub older: Vec<Activation>,
    pub objects: Vec<Object>,
    pub files: GivenFiles,
    /// The blocks that a procedural value was made of, by their numbers.
    pub blocks: Vec<Path>,
    /// The place of the instruction that was executed last.
    pub at: u32,
    /// The live cells.
    pub used: u64,
}

impl Processor {
    /// The last operand of the newest activation.
    #[inline(always)]
    pub fn take(&mut self) -> Result<Operand, Stop>
        ensures row { (paths : ℕ → Steps) → Agrees (action.take (state_of paths self.old)) result (state_of paths self.new) }
        ensures kept { Unmoved self.old self.new }
        ensures room { OnOk result (Fits 1 self.new) }
        ensures memory { NoMemory result }
        ensures more { (n : ℕ) → Fits n self.old → OnOk result (Fits (suc n) self.new) }
    {
        if self.operands.len() <= self.newest.below {
            return Err(Stop::Stuck);
        }
        match self.operands.pop() {
            Some(x) => Ok(x),
            None => Err(Stop::Stuck),
        }
    }

    #[inline(always)]
    pub fn take_cell(&mut self) -> Result<Cell, Stop>
        ensures row { (paths : ℕ → Steps) → Agrees (action.take_cell (state_of paths self.old)) result (state_of paths self.new) }
        ensures kept { Unmoved self.old self.new }
        ensures room { OnOk result (Fits 1 self.new) }
        ensures memory { NoMemory result }
        ensures more { (n : ℕ) → Fits n self.old → OnOk result (Fits (suc n) self.new) }
    {
        match self.take()? {
            Operand::One(x) => Ok(x),
            Operand::Block(_cells) => Err(Stop::Stuck),
        }
    }

    #[inline(always)]
    pub fn take_block(&mut self) -> Result<Cells, Stop>
        ensures row { (paths : ℕ → Steps) → Agrees (action.take_block (state_of paths self.old)) result (state_of paths self.new) }
        ensures kept { Unmoved self.old self.new }
        ensures room { OnOk result (Fits 1 self.new) }
        ensures memory { NoMemory result }
    {
        match self.take()? {
            Operand::One(_x) => Err(Stop::Stuck),
            Operand::Block(cells) => Ok(cells),
        }
    }

    #[inline(always)]
    pub fn take_number(&mut self) -> Result<i64, Stop>
        ensures row { (paths : ℕ → Steps) → Agrees (action.take_number (state_of paths self.old)) result (state_of paths self.new) }
        ensures kept { Unmoved self.old self.new }
        ensures room { OnOk result (Fits 1 self.new) }
        ensures memory { NoMemory result }
    {
        match self.take_cell()? {
            Cell::Int(n) => Ok(n),
            _ => Err(Stop::Stuck),
        }
    }

    #[inline(always)]
    pub fn take_members(&mut self) -> Result<MemberSet, Stop>
        ensures row { (paths : ℕ → Steps) → Agrees (action.take_members (state_of paths self.old)) result (state_of paths self.new) }
        ensures kept { Unmoved self.old self.new }
        ensures room { OnOk result (Fits 1 self.new) }
        ensures memory { NoMemory result }
    {
        match self.take_cell()? {
            Cell::Members(set) => Ok(set),
            _ => Err(Stop::Stuck),
        }
    }

    #[inline(always)]
    pub fn take_pointer(&mut self) -> Result<u64, Stop>
        ensures row { (paths : ℕ → Steps) → Agrees (action.take_pointer (state_of paths self.old)) result (state_of paths self.new) }
        ensures kept { Unmoved self.old self.new }
        ensures room { OnOk result (Fits 1 self.new) }
        ensures memory { NoMemory result }
    {
        match self.take_cell()? {
            Cell::Ptr(object) => Ok(object),
            _ => Err(Stop::Stuck),
        }
    }

    #[inline(always)]
    pub fn take_address(&mut self) -> Result<Address, Stop>
        ensures row { (paths : ℕ → Steps) → Agrees (action.take_address (state_of paths self.old)) result (state_of paths self.new) }
        ensures kept { Unmoved self.old self.new }
        ensures room { OnOk result (Fits 1 self.new) }
        ensures memory { NoMemory result }
    {
        match self.take_cell()? {
            Cell::Ref { root, offset } => Ok(Address { root, offset }),
            _ => Err(Stop::Stuck),
        }
    }

    /// Puts an operand of the newest activation.
    #[inline(always)]
    pub fn put(&mut self, x: Operand)
        requires { Fits 1 self.old }
        ensures row { (paths : ℕ → Steps) → action.put x (state_of paths self.old) ≡ Done tt (state_of paths self.new) }
        ensures kept { Unmoved self.old self.new }
        ensures room { (n : ℕ) → Fits (suc n) self.old → Fits n self.new }
    {
        // There is room, so that no memory is asked for.
        let _ = self.operands.push(x);
    }

    #[inline(always)]
    pub fn put_cell(&mut self, x: Cell)
        requires { Fits 1 self.old }
        ensures row { (paths : ℕ → Steps) → action.put_cell x (state_of paths self.old) ≡ Done tt (state_of paths self.new) }
        ensures kept { Unmoved self.old self.new }
        ensures room { (n : ℕ) → Fits (suc n) self.old → Fits n self.new }
    {
        self.put(Operand::One(x))
    }

    #[inline(always)]
    pub fn put_number(&mut self, n: i64)
        requires { Fits 1 self.old }
        ensures row { (paths : ℕ → Steps) → action.put_number n (state_of paths self.old) ≡ Done tt (state_of paths self.new) }
        ensures kept { Unmoved self.old self.new }
    {
        self.put_cell(Cell::Int(n))
    }

    #[inline(always)]
    pub fn put_truth(&mut self, b: bool)
        requires { Fits 1 self.old }
        ensures row { (paths : ℕ → Steps) → action.put_truth b (state_of paths self.old) ≡ Done tt (state_of paths self.new) }
        ensures kept { Unmoved self.old self.new }
    {
        self.put_number(if b { 1 } else { 0 })
    }

    #[inline(always)]
    pub fn put_members(&mut self, set: MemberSet)
        requires { Fits 1 self.old }
        ensures row { (paths : ℕ → Steps) → action.put_members set (state_of paths self.old) ≡ Done tt (state_of paths self.new) }
        ensures kept { Unmoved self.old self.new }
    {
        self.put_cell(Cell::Members(set))
    }

    #[inline(always)]
    pub fn put_reference(&mut self, a: Address)
        requires { Fits 1 self.old }
        ensures row { (paths : ℕ → Steps) → action.put_reference a (state_of paths self.old) ≡ Done tt (state_of paths self.new) }
        ensures kept { Unmoved self.old self.new }
    {
        self.put_cell(Cell::Ref {
            root: a.root,
            offset: a.offset,
        })
    }

    /// Makes room for so many operands more. Nothing that a contract sees changes, also where memory is wanting.
    pub fn make_room(&mut self, count: usize) -> Result<(), Memory>
        ensures state { (paths : ℕ → Steps) → state_of paths self.new ≡ state_of paths self.old }
        ensures kept { Unmoved self.old self.new }
        ensures room { OnOk result (vec_len self.new.operands + count ≤ vec_capacity self.new.operands) }
    {
        match self.operands.reserve(count) {
            Ok(()) => Ok(()),
            Err(_) => Err(Memory),
        }
    }

    /// The next instruction is the one that is executed last.
    #[inline(always)]
    pub fn begin(&mut self, at: u32)
        requires { self.old.newest.next + 1 < 2 ^ 64 }
        ensures row { (paths : ℕ → Steps) → state_of paths self.new ≡ begun at (state_of paths self.old) }
        ensures kept { Unmoved self.old self.new }
        ensures exact { self.new ≡ record self.old { newest = record self.old.newest { next = self.old.newest.next + 1 }; at = at } }
    {
        self.newest.next += 1;
        self.at = at;
    }
}
