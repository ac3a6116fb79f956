// Steps: the row of the next instruction, and what the machine answers.
ghost use Rattle.std.specs.Prelude.{◌≡◌, ◌+◌, ◌^◌, ◌<◌, ◌≤◌, IfNone, IfOk, IfSome, None, OnOk, Some, false, length, option_copied, true, vec_len};
ghost use Rattle.mp_machine.specs.Conditions.{HasRoom, IsAnswered, IsStep};
ghost use Rattle.mp_machine.specs.Plays.{grows};
ghost use Rattle.mp_machine.specs.Loads.{AllFound, paths_of};
ghost use Rattle.mp_machine.specs.declared.machine.Over.TheVariants as reason;
ghost use Rattle.mp_machine.specs.Machines.{IsInside, answer_if, answer_of, machine_seen};
ghost use Rattle.mp_machine.specs.Answering.{IsAnswer, Played, Started, Stopped, kept_answer};
ghost use Rattle.mp_machine.specs.Shown.{IsLoaded, Sound, WhereMissing, state_of};
ghost use Rattle.mp_machine.specs.States.{place_of};
ghost use Rattle.mp_machine.specs.Steps.{is_start, next_instruction, step};

use crate::answers::Gone;
use crate::codes::LoadedBlocks;
use crate::machine::Over;
use crate::processor::{Processor, Stop};
use mp_base::{Memory, Place};
use mp_code::{Instr, OPERAND_LIMIT, Operation};

// Whether a statement starts there.
#[inline(always)]
fn is_start(operation: &Operation) -> bool
    ensures { result ≡ is_start operation.now }
{
    match operation {
        Operation::Stmt => true,
        _ => false,
    }
}

// Whether it may put more operands than it takes.
fn may_grow(operation: &Operation) -> bool
    ensures { result ≡ grows operation.now }
{
    match operation {
        Operation::Int { .. }
        | Operation::Nil
        | Operation::Empty
        | Operation::Chars { .. }
        | Operation::Proc { .. }
        | Operation::Addr { .. }
        | Operation::FileAt { .. }
        | Operation::Dup
        | Operation::Return { .. } => true,
        _ => false,
    }
}

impl Processor {
    #[inline(always)]
    fn next_instruction<'a>(&self, codes: &'a LoadedBlocks) -> Option<&'a Instr>
        requires found { AllFound codes.now }
        requires loaded { IsLoaded (length codes.now) self.now }
        ensures instruction { option_copied result ≡ next_instruction codes.now (state_of (paths_of codes.now) self.now) }
        ensures next { IfSome result (λ i. self.now.newest.next + 1 < 2 ^ 64) }
    {
        match codes.code(self.newest.block) {
            Some(code) => code.instructions().get(self.newest.next),
            None => None,
        }
    }

    /// Plays the next instruction, and tells whether it starts a statement. Where a block is missing all stays as it was; it
    /// is stuck exactly where the table has no answer.
    pub(crate) fn step(&mut self, codes: &LoadedBlocks) -> Result<bool, Stop>
        requires sound { Sound self.old }
        requires loaded { IsLoaded (length codes.now) self.old }
        requires found { AllFound codes.now }
        requires room { HasRoom codes.now (state_of (paths_of codes.now) self.old) }
        ensures row { Played codes.now (state_of (paths_of codes.now) self.old) result (state_of (paths_of codes.now) self.new) }
        ensures sound { OnOk result (Sound self.new) }
        ensures again { WhereMissing result (Sound self.new) }
        ensures loaded { IsLoaded (length codes.now) self.new }
    {
        let Some(instruction) = self.next_instruction(codes) else {
            return Err(Stop::Stuck);
        };
        let next = self.newest.next;
        let at = self.at;
        self.begin(instruction.ordinal);
        match self.play(codes, &instruction.operation) {
            Ok(()) => Ok(is_start(&instruction.operation)),
            Err(Stop::Missing(path)) => {
                self.go_back(next, at);
                Err(Stop::Missing(path))
            }
            Err(Stop::Fault(number)) => Err(Stop::Fault(number)),
            Err(Stop::Limit(which)) => Err(Stop::Limit(which)),
            Err(Stop::Ended) => Err(Stop::Ended),
            Err(Stop::Stuck) => Err(Stop::Stuck),
            Err(Stop::Memory) => Err(Stop::Memory),
        }
    }

    // The newest activation goes back to the instruction that it came from.
    #[inline(always)]
    fn go_back(&mut self, next: usize, at: u32)
        ensures { self.new ≡ record self.old { newest = record self.old.newest { next = next }; at = at } }
    {
        self.newest.next = next;
        self.at = at;
    }
}

// Where the newest activation is.
fn place(codes: &LoadedBlocks, processor: &Processor) -> Result<Place, Memory>
    requires { IsLoaded (length codes.now) processor.now }
    ensures { IfOk result (λ place. place ≡ place_of (state_of (paths_of codes.now) processor.now)) }
{
    match codes.path(processor.newest.block) {
        Some(path) => Ok(Place {
            path: path.copy()?,
            ordinal: processor.at,
        }),
        None => Err(Memory),
    }
}

// The answer of a machine that goes on no more, or want of memory for its place.
fn answer_of(codes: &LoadedBlocks, processor: &Processor, why: Over) -> Gone
    requires { IsLoaded (length codes.now) processor.now }
    ensures { IsAnswer (answer_of (state_of (paths_of codes.now) processor.now) why) result }
{
    match why {
        Over::Ended => Gone::Ended,
        Over::Fault(no) => match place(codes, processor) {
            Ok(place) => Gone::Fault { no, place },
            Err(Memory) => Gone::Memory,
        },
        Over::Limit(which) => match place(codes, processor) {
            Ok(place) => Gone::Limit { which, place },
            Err(Memory) => Gone::Memory,
        },
        Over::Memory => Gone::Memory,
    }
}

fn why_after(answer: &Gone, why: Over) -> Over
    ensures { result ≡ kept_answer answer.now why }
{
    match answer {
        Gone::Memory => Over::Memory,
        _ => why,
    }
}

// The machine goes on no more for this reason, and answers it; or for want of memory.
fn stop(codes: &LoadedBlocks, processor: &Processor, over: &mut Option<Over>, why: Over) -> Gone
    requires { IsLoaded (length codes.now) processor.now }
    ensures answer { Stopped (answer_of (state_of (paths_of codes.now) processor.now) why) result (answer_if (state_of (paths_of codes.now) processor.now) over.new) }
    ensures kept { over.new ≡ None → ⊥ }
{
    let answer = answer_of(codes, processor, why);
    *over = Some(why_after(&answer, why));
    answer
}

// A statement starts where the newest activation is.
fn start(codes: &LoadedBlocks, processor: &Processor, over: &mut Option<Over>) -> Gone
    requires { IsLoaded (length codes.now) processor.now }
    ensures { Started (place_of (state_of (paths_of codes.now) processor.now)) over.old result over.new }
{
    match place(codes, processor) {
        Ok(place) => Gone::AtStatement(place),
        Err(Memory) => {
            *over = Some(Over::Memory);
            Gone::Memory
        }
    }
}

// A step of a machine that goes on; None where the table has no answer.
pub(crate) fn go_on(
    codes: &LoadedBlocks,
    processor: &mut Processor,
    over: &mut Option<Over>,
) -> Option<Gone>
    requires inside { IsInside codes.now processor.old over.old }
    requires onward { over.old ≡ None }
    requires room { HasRoom codes.now (state_of (paths_of codes.now) processor.old) }
    ensures step { IfSome result (λ g. IsStep (machine_seen codes.now processor.old over.old) g (machine_seen codes.now processor.new over.new)) }
    ensures stuck { IfNone result (IsAnswered (step codes.now (state_of (paths_of codes.now) processor.old)) → ⊥) }
    ensures lost { IfNone result (over.new ≡ Some reason.Memory) }
    ensures inside { IsInside codes.now processor.new over.new }
{
    match processor.step(codes) {
        Ok(true) => Some(start(codes, processor, over)),
        Ok(false) => Some(Gone::Went),
        Err(Stop::Missing(path)) => Some(Gone::Missing(path)),
        Err(Stop::Fault(number)) => Some(stop(codes, processor, over, Over::Fault(number))),
        Err(Stop::Limit(which)) => Some(stop(codes, processor, over, Over::Limit(which))),
        Err(Stop::Ended) => Some(stop(codes, processor, over, Over::Ended)),
        Err(Stop::Memory) => {
            *over = Some(Over::Memory);
            Some(Gone::Memory)
        }
        Err(Stop::Stuck) => {
            *over = Some(Over::Memory);
            None
        }
    }
}

// A step of a machine that goes on no more: it answers that again.
pub(crate) fn again(
    codes: &LoadedBlocks,
    processor: &Processor,
    over: &mut Option<Over>,
    why: Over,
) -> Gone
    requires inside { IsInside codes.now processor.now over.old }
    requires stopped { over.old ≡ Some why }
    ensures step { IsStep (machine_seen codes.now processor.now over.old) result (machine_seen codes.now processor.now over.new) }
    ensures inside { IsInside codes.now processor.now over.new }
{
    stop(codes, processor, over, why)
}

// Whether fewer roots than there are numbers were given, and there may be one operand more where the next instruction may
// put one more than it takes.
pub(crate) fn has_room(codes: &LoadedBlocks, processor: &Processor) -> bool
    requires found { AllFound codes.now }
    requires loaded { IsLoaded (length codes.now) processor.now }
    requires own { processor.now.newest.below ≤ vec_len processor.now.operands }
    ensures yes { result ≡ true → HasRoom codes.now (state_of (paths_of codes.now) processor.now) }
    ensures no { result ≡ false → HasRoom codes.now (state_of (paths_of codes.now) processor.now) → ⊥ }
{
    if processor.store.given() == u64::MAX {
        return false;
    }
    match processor.next_instruction(codes) {
        Some(instruction) => {
            !may_grow(&instruction.operation)
                || processor.operands.len() - processor.newest.below < OPERAND_LIMIT as usize
        }
        None => true,
    }
}
