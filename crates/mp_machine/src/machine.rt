ghost use Rattle.std.specs.Prelude.{◌≡◌, ◌≤◌, ◌∷◌, ◌++◌, [], IfNone, IfOk, IfSome, None, OnErr, OnOk, Some, is_some, ℕ};
ghost use Rattle.std.specs.Arc.{arc_value};
ghost use Rattle.mp_memory.specs.Roots.{roots_of};
ghost use Rattle.mp_machine.specs.FileRows.{buffer_cell};
ghost use Rattle.mp_machine.specs.Machines.{answer_if, machine_in, roots_at_start, state_in};
ghost use Rattle.mp_base.specs.declared.limits.TheConstants.{CELL_LIMIT};
ghost use Rattle.mp_machine.specs.Blocks.{Path as Steps};
ghost use Rattle.mp_machine.specs.declared.answers.Gone.TheVariants as gone;
ghost use Rattle.mp_machine.specs.Conditions.{IsReady, IsStep};
ghost use Rattle.mp_machine.specs.Shown.{IsLoaded, Sound, state_of};
ghost use Rattle.mp_machine.specs.States.{State, code_of};
ghost use Rattle.mp_machine.specs.Steps.{first_state, over_at_start, program_alone, start};
ghost use Rattle.mp_machine.specs.Views.{object_root};

use crate::activations::Activation;
use crate::answers::Gone;
use crate::calls::first_place;
use crate::codes::LoadedBlocks;
use crate::given_files::GivenFiles;
use crate::processor::Processor;
use crate::steps::{again, go_on, has_room};
use mp_base::{CELL_LIMIT, Memory, Path};
use mp_code::{Code, OPERAND_LIMIT};
use mp_memory::{Cell, Store};
use std::alloc::Global;
use std::marker::Model;
use std::sync::Arc;

/// Why a machine goes on no more; where it stopped is where its newest activation is.
#[derive(Clone, Copy)]
pub(crate) enum Over {
    Ended,
    Fault(u8),
    Limit(u8),
    Memory,
}

/// The stack machine: the blocks whose code is loaded, and a run of them. To a contract it is the loaded codes, the state
/// of the run, and its answer for ever where it has ended, or has met a fault or a limit.
#[derive(Drop)]
pub struct Machine {
    codes: LoadedBlocks,
    processor: Processor,
    over: Option<Over>,
}

impl Model for Machine {
    ghost use Rattle.mp_machine.specs.Machines.{IsInside, LoadedMachine, machine_seen};

    ghost Value = { LoadedMachine };

    ghost view = { λ m. machine_seen m.codes m.processor m.over };

    ghost invariant = { λ m. IsInside m.codes m.processor m.over };
}

pub(crate) fn buffer_cell(shown: Option<u8>) -> Cell
    ensures { result ≡ buffer_cell shown }
{
    match shown {
        Some(byte) => Cell::Int(i64::from(byte)),
        None => Cell::Undef,
    }
}

// The cells of a run as it begins: those of `input` and `output` with their buffers, and those of the program's block.
fn first_store(alloc: Global, buffer: Cell, frame: u32) -> Result<Store, Memory>
    ensures roots { IfOk result (λ store. (q : ℕ) → roots_of store q ≡ roots_at_start buffer frame q) }
    ensures next { IfOk result (λ store. store.next ≡ 2) }
{
    let mut store = Store::new(alloc);
    store.add(4)?;
    let cells = [Cell::FileNo(0), buffer, Cell::FileNo(1), Cell::Undef];
    let _ = store.write(0, 0, &cells);
    store.add(frame)?;
    Ok(store)
}

// Limit 2 where the counted cells of the program's block are too many.
fn first_over(main: &Code) -> Option<Over>
    ensures answer { (s : State) → answer_if s result ≡ over_at_start main.now s }
    ensures none { IfNone result (main.now.counted ≤ CELL_LIMIT) }
{
    if main.counted() > CELL_LIMIT {
        return Some(Over::Limit(2));
    }
    None
}

// What runs as a run begins: the activation of the program's block alone.
fn first_processor(alloc: Global, main: &Code, input: &[u8]) -> Result<Processor, Memory>
    ensures state { IfOk result (λ m. (paths : ℕ → Steps) → paths 0 ≡ [] → state_of paths m ≡ first_state main.now input.now) }
    ensures loaded { IfOk result (λ m. IsLoaded 1 m) }
    ensures sound { IfOk result (λ m. main.now.counted ≤ CELL_LIMIT → Sound m) }
{
    let files = GivenFiles::new(alloc, input)?;
    let buffer = buffer_cell(files.get().shown(0));
    let store = first_store(alloc, buffer, main.frame())?;
    Ok(Processor {
        alloc,
        store,
        operands: Vec::with_capacity(alloc, OPERAND_LIMIT as usize)?,
        newest: Activation {
            number: 1,
            block: 0,
            parent: 0,
            from: first_place(main),
            cells: main.counted(),
            below: 0,
            next: 0,
        },
        older: Vec::new(alloc),
        objects: Vec::new(alloc),
        files,
        blocks: Vec::new(alloc),
        at: first_place(main),
        used: u64::from(main.counted()),
    })
}

impl Machine {
    /// A machine before its first instruction: of the program's block, whose code this is, with these bytes as `input`.
    /// Where its counted cells are too many, the first step answers limit 2.
    pub fn new(alloc: Global, main: Arc<Code>, input: &[u8]) -> Result<Machine, Memory>
        ensures codes { IfOk result (λ m. m.codes ≡ program_alone (arc_value main)) }
        ensures machine { IfOk result (λ m. machine_in m ≡ start (arc_value main) input.now) }
    {
        let processor = first_processor(alloc, &main, input)?;
        let over = first_over(&main);
        let mut codes = LoadedBlocks::new(alloc);
        codes.add(Path::top(alloc)?, main)?;
        Ok(Machine {
            codes,
            processor,
            over,
        })
    }

    /// The cells of the run, by root and offset.
    pub fn store(&self) -> &Store
        ensures roots { (q : ℕ) → roots_of result.now q ≡ (state_in self.now).roots q }
        ensures next { result.now.next ≡ (state_in self.now).next_root }
    {
        &self.processor.store
    }

    /// The root of the object of a number, where it is not disposed of.
    pub fn object(&self, number: u64) -> Option<u64>
        ensures { result ≡ object_root (state_in self.now) number }
    {
        if number == 0 {
            return None;
        }
        let index = number - 1;
        match self.processor.objects.get(index as usize) {
            Some(object) => {
                if self.processor.store.is_live(object.root) {
                    return Some(object.root);
                }
                None
            }
            None => None,
        }
    }

    /// Whether the block of a path has its code loaded.
    pub fn has_code(&self, path: &Path) -> bool
        ensures { result ≡ is_some (code_of self.now.codes path.now) }
    {
        match self.codes.find(path) {
            Some(_) => true,
            None => false,
        }
    }

    /// The code of one block more, which must have none loaded. No block gets a number by it, and nothing else changes.
    pub fn load(&mut self, path: Path, code: Arc<Code>) -> Result<(), Memory>
        requires { code_of self.old.codes path ≡ None }
        ensures loaded { OnOk result (self.new.codes ≡ self.old.codes ++ record { path = path; code = arc_value code } ∷ []) }
        ensures machine { machine_in self.new ≡ machine_in self.old }
        ensures unchanged { OnErr result (self.new ≡ self.old) }
    {
        match self.codes.add(path, code) {
            Ok(()) => {}
            Err(Memory) => return Err(Memory),
        }
        Ok(())
    }

    /// One step: the row of the next instruction. Fault and limit stand where the newest activation is; where the called
    /// block has no code nothing changes. `Memory` is answered only by a step that may want memory: a call, `Proc`, `New`,
    /// `LoadMany`, `Chars`, an operation on a file, the start of a statement, and a step that meets a fault or a limit or
    /// answers it again. After an ending, a fault, a limit or want of memory every step answers that again.
    #[inline]
    pub fn step(&mut self) -> Gone
        requires { self.old.over ≡ None → IsReady self.old.codes (state_in self.old) }
        ensures step { IsStep self.old result self.new }
        ensures codes { self.new.codes ≡ self.old.codes }
    {
        if let Some(why) = self.over {
            return again(&self.codes, &self.processor, &mut self.over, why);
        }
        match go_on(&self.codes, &mut self.processor, &mut self.over) {
            Some(gone) => gone,
            None => Gone::Memory,
        }
    }

    /// One step where its condition is met, as `step` makes it; None exactly where it is not. Then the machine answers
    /// `Memory` for ever.
    pub fn step_where_ready(&mut self) -> Option<Gone>
        ensures step { IfSome result (λ g. IsStep self.old g self.new) }
        ensures stuck { IfNone result (self.old.over ≡ None) }
        ensures unready { IfNone result (IsReady self.old.codes (state_in self.old) → ⊥) }
        ensures over { IfNone result (self.new.over ≡ Some gone.Memory) }
        ensures codes { self.new.codes ≡ self.old.codes }
    {
        if let Some(why) = self.over {
            return Some(again(&self.codes, &self.processor, &mut self.over, why));
        }
        if !has_room(&self.codes, &self.processor) {
            self.over = Some(Over::Memory);
            return None;
        }
        go_on(&self.codes, &mut self.processor, &mut self.over)
    }
}
