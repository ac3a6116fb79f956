// The search for the first index at which a clause of the shape fails.
ghost use Rattle.std.specs.Prelude.{◌≡◌, ◌+◌, ◌<◌, ◌≤◌, ◌^◌, ◌||◌, ℕ, Some, MatchOption, length, map, slice_get, true, false};
ghost use Rattle.std.specs.List.{list_all};
ghost use Rattle.mp_code.specs.BlockCode.{BlockCode};
ghost use Rattle.mp_code.specs.Drafts.{IsFirst, draft_code, is_wrong_here, is_wrong_target};
ghost use Rattle.mp_code.specs.Shape.{IsShaped, IsFirstBad, fails_at, is_right, is_wrong_instruction, is_wrong_label, is_wrong_length, is_wrong_start, leads_well, least_that, lesser_of, successors, target_of};

use crate::effects::{goes_on, is_bare, puts, takes};
use crate::instructions::{CaseArm, Instr, Operation};

/// The most operands that may stand before an instruction.
pub const OPERAND_LIMIT: u32 = 1_048_576;

/// Code that may have any shape.
#[derive(Drop)]
pub(crate) struct Draft {
    pub instructions: Vec<Instr>,
    pub depths: Vec<u32>,
    pub labels: Vec<(u32, u32)>,
    pub frame: u32,
    pub counted: u32,
}

impl Draft {
    // Whether the index is inside, and so many operands stand there.
    fn leads_well(&self, depth: u64, to: usize) -> bool
        ensures { result ≡ leads_well (draft_code self.now) depth to }
    {
        if to >= self.instructions.len() {
            return false;
        }
        match self.depths.get(to) {
            Some(found) => u64::from(*found) == depth,
            None => false,
        }
    }

    fn arms_lead_well(&self, depth: u64, arms: &[CaseArm]) -> bool
        ensures { result ≡ list_all (leads_well (draft_code self.now) depth) (map target_of arms.now) }
    {
        'arms: for arm in arms {
            if !self.leads_well(depth, arm.target as usize) {
                return false;
            }
        }
        true
    }

    // Whether so many operands stand at each index that the operation at this one leads to.
    fn successors_lead_well(&self, at: usize, depth: u64, operation: &Operation) -> bool
        requires { at < length self.now.instructions.items }
        ensures { result ≡ list_all (leads_well (draft_code self.now) depth) (successors at operation.now) }
    {
        if goes_on(operation) && !self.leads_well(depth, at + 1) {
            return false;
        }
        match operation {
            Operation::Jump { target } => self.leads_well(depth, *target as usize),
            Operation::False { target } => self.leads_well(depth, *target as usize),
            Operation::Case { arms } => self.arms_lead_well(depth, arms.as_slice()),
            _ => true,
        }
    }

    // Whether the operation is right at this index, where so many operands stand.
    fn is_right(&self, at: usize, depth: u32, operation: &Operation) -> bool
        requires { at < length self.now.instructions.items }
        ensures { result ≡ is_right (draft_code self.now) at depth operation.now }
    {
        let before = u64::from(depth);
        let taken = takes(operation);
        if taken > before {
            return false;
        }
        let behind = before - taken + puts(operation);
        if !self.successors_lead_well(at, behind, operation) {
            return false;
        }
        if is_bare(operation) && depth != 0 {
            return false;
        }
        depth <= OPERAND_LIMIT
    }

    fn is_wrong_instruction(&self, at: usize) -> bool
        ensures { result ≡ is_wrong_instruction (draft_code self.now) at }
    {
        let Some(instruction) = self.instructions.get(at) else {
            return false
        };
        let Some(depth) = self.depths.get(at) else {
            return false
        };
        !self.is_right(at, *depth, &instruction.operation)
    }

    fn is_wrong_start(&self, at: usize) -> bool
        ensures { result ≡ is_wrong_start (draft_code self.now) at }
    {
        at == 0 && !self.leads_well(0, 0)
    }

    fn is_wrong_length(&self, at: usize) -> bool
        ensures { result ≡ is_wrong_length (draft_code self.now) at }
    {
        let instructions = self.instructions.len();
        let depths = self.depths.len();
        if depths <= instructions {
            return at == depths && depths != instructions;
        }
        at == instructions
    }

    // Whether a clause fails at the index, that on labels aside.
    fn is_wrong_here(&self, at: usize) -> bool
        ensures { result ≡ is_wrong_here (draft_code self.now) at }
    {
        if self.is_wrong_start(at) {
            return true;
        }
        if self.is_wrong_length(at) {
            return true;
        }
        self.is_wrong_instruction(at)
    }

    fn first_wrong_index(&self) -> Option<u32>
        requires { length self.now.instructions.items < 2 ^ 32 }
        ensures { MatchOption result ((k : ℕ) → is_wrong_here (draft_code self.now) k ≡ false) (λ k. IsFirst (is_wrong_here (draft_code self.now)) k) }
    {
        'indexes: for at in 0..self.instructions.len() + 1 {
            if self.is_wrong_here(at) {
                return Some(at as u32);
            }
        }
        None
    }

    // The least index at which a label stands wrongly.
    fn least_wrong_label(&self) -> Option<u32>
        ensures { result ≡ least_that (is_wrong_target (draft_code self.now)) (map (λ pair. pair.1) self.now.labels.items) }
    {
        let mut least = None;
        let mut left = self.labels.len();
        'labels: while left > 0 {
            left -= 1;
            let index = self.labels[left].1;
            if !self.leads_well(0, index as usize) {
                least = Some(lesser(index, least));
            }
        }
        least
    }

    /// The least index at which a clause of the shape fails.
    pub fn first_bad(&self) -> Option<u32>
        requires { length self.now.instructions.items < 2 ^ 32 }
        ensures { MatchOption result (IsShaped (draft_code self.now)) (λ k. IsFirstBad (draft_code self.now) k) }
    {
        let label = self.least_wrong_label();
        match self.first_wrong_index() {
            Some(index) => Some(lesser(index, label)),
            None => label,
        }
    }
}

fn lesser(index: u32, other: Option<u32>) -> u32
    ensures { lesser_of index other ≡ Some result }
{
    match other {
        Some(other) => { if index <= other { index } else { other } }
        None => index,
    }
}
