// The live activations around the newest (ISO 7185, 6.2.3).
ghost use Rattle.std.specs.Prelude.{◌≡◌, ◌∷◌, IfOk, ℕ, reverse, true};
ghost use Rattle.mp_machine.specs.VariableRows as variable;
ghost use Rattle.mp_machine.specs.Activations.{seek};
ghost use Rattle.mp_machine.specs.Blocks.{Path as Steps};
ghost use Rattle.mp_machine.specs.CallRows as call;
ghost use Rattle.mp_machine.specs.Loads.{paths_of};
ghost use Rattle.mp_machine.specs.Memory as memory;
ghost use Rattle.mp_machine.specs.Shown.{Agrees, Fits, NoMemory, Unmoved, WhereMissing, activations_seen, is_among, state_of};

use crate::activations::Activation;
use crate::addresses::Address;
use crate::codes::{LoadedBlocks, is_same};
use crate::processor::{Processor, Stop};
use mp_base::{Memory, Path};
use mp_memory::Cell;

// From the activation of a number outward to the one whose block has the depth: its number.
fn seek(codes: &LoadedBlocks, older: &[Activation], number: u64, depth: u32) -> Option<u64>
    ensures { result ≡ seek (activations_seen (paths_of codes.now) (reverse older.now)) number depth }
{
    let mut sought = number;
    let mut k = older.len();
    'outward: while k > 0 {
        k -= 1;
        let a = older[k];
        if a.number == sought {
            if codes.depth(a.block) == depth as usize {
                return Some(sought);
            }
            sought = a.parent;
        }
    }
    None
}

// The number of a block, where a procedural value was made of it.
fn number_of_block(blocks: &Vec<Path>, path: &Path) -> Option<u64>
    ensures { result ≡ call.number_of_block blocks.now.items path.now }
{
    'blocks: for k in 0..blocks.len() {
        if is_same(&blocks[k], path) {
            return Some(k as u64);
        }
    }
    None
}

impl Processor {
    /// The number of the activation of the depth around the newest.
    #[inline(always)]
    pub(crate) fn activation_at(&self, codes: &LoadedBlocks, depth: u32) -> Result<u64, Stop>
        ensures row { Agrees (memory.activation_at depth (state_of (paths_of codes.now) self.now)) result (state_of (paths_of codes.now) self.now) }
        ensures lives { IfOk result (λ number. is_among number (self.now.newest ∷ reverse self.now.older.items) ≡ true) }
        ensures present { WhereMissing result ⊥ }
        ensures memory { NoMemory result }
    {
        if codes.depth(self.newest.block) == depth as usize {
            return Ok(self.newest.number);
        }
        match seek(codes, &self.older, self.newest.parent, depth) {
            Some(number) => Ok(number),
            None => Err(Stop::Stuck),
        }
    }

    /// none : Ref to a cell of the frame of the activation of the depth
    #[inline(always)]
    pub(crate) fn addr(&mut self, codes: &LoadedBlocks, depth: u32, offset: u32) -> Result<(), Stop>
        requires { Fits 1 self.old }
        ensures row { Agrees (variable.addr depth offset (state_of (paths_of codes.now) self.old)) result (state_of (paths_of codes.now) self.new) }
        ensures kept { Unmoved self.old self.new }
        ensures memory { NoMemory result }
    {
        let root = self.activation_at(codes, depth)?;
        self.put_reference(Address { root, offset });
        Ok(())
    }

    /// none : the block as a procedural value whose static parent is the activation of the depth. A block's number is given
    /// where it is first named.
    pub(crate) fn proc(&mut self, codes: &LoadedBlocks, depth: u32, path: &Path) -> Result<(), Stop>
        requires { Fits 1 self.old }
        ensures row { Agrees (call.proc depth path.now (state_of (paths_of codes.now) self.old)) result (state_of (paths_of codes.now) self.new) }
        ensures kept { Unmoved self.old self.new }
    {
        let act = self.activation_at(codes, depth)?;
        match number_of_block(&self.blocks, path) {
            Some(block) => {
                self.put_cell(Cell::Code { block, act });
                Ok(())
            }
            None => {
                let block = self.blocks.len() as u64;
                self.add_block(path)?;
                self.put_cell(Cell::Code { block, act });
                Ok(())
            }
        }
    }

    fn add_block(&mut self, path: &Path) -> Result<(), Stop>
        ensures row { (paths : ℕ → Steps) → Agrees (call.add_block path.now (state_of paths self.old)) result (state_of paths self.new) }
        ensures kept { Unmoved self.old self.new }
        ensures room { (n : ℕ) → Fits n self.old → Fits n self.new }
    {
        let path = match path.copy() {
            Ok(path) => path,
            Err(Memory) => return Err(Stop::Memory),
        };
        if self.blocks.push(path).is_err() {
            return Err(Stop::Memory);
        }
        Ok(())
    }
}
