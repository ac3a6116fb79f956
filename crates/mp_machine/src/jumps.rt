// Rows that jump within a block (ISO 7185, 6.8.3.4, 6.8.3.5).
ghost use Rattle.std.specs.Prelude.{◌≡◌, ℕ};
ghost use Rattle.mp_machine.specs.Blocks.{Path as Steps};
ghost use Rattle.mp_machine.specs.CallRows as call;
ghost use Rattle.mp_machine.specs.Operands as action;
ghost use Rattle.mp_machine.specs.Outcomes.{Done};
ghost use Rattle.mp_machine.specs.Shown.{Agrees, NoMemory, Unmoved, state_of};

use crate::processor::{Processor, Stop};
use mp_code::CaseArm;

fn arm_of(arms: &[CaseArm], i: i64) -> Option<u32>
    ensures { result ≡ call.arm_of arms.now i }
{
    'arms: for arm in arms {
        if arm.constant == i {
            return Some(arm.target);
        }
    }
    None
}

impl Processor {
    /// It goes on at this index.
    #[inline(always)]
    pub(crate) fn go_on_at(&mut self, target: u32)
        ensures row { (paths : ℕ → Steps) → action.go_on_at target (state_of paths self.old) ≡ Done tt (state_of paths self.new) }
        ensures kept { Unmoved self.old self.new }
    {
        self.newest.next = target as usize;
    }

    /// i : none. Jumps where i is 0.
    #[inline(always)]
    pub(crate) fn jump_if_false(&mut self, target: u32) -> Result<(), Stop>
        ensures row { (paths : ℕ → Steps) → Agrees (call.jump_if_false target (state_of paths self.old)) result (state_of paths self.new) }
        ensures kept { Unmoved self.old self.new }
        ensures memory { NoMemory result }
    {
        let i = self.take_number()?;
        if i == 0 {
            self.go_on_at(target);
        }
        Ok(())
    }

    /// i : none. Jumps to the arm of i. Fault 5 where there is none.
    #[inline(always)]
    pub(crate) fn jump_to_arm(&mut self, arms: &[CaseArm]) -> Result<(), Stop>
        ensures row { (paths : ℕ → Steps) → Agrees (call.case arms.now (state_of paths self.old)) result (state_of paths self.new) }
        ensures kept { Unmoved self.old self.new }
        ensures memory { NoMemory result }
    {
        let i = self.take_number()?;
        match arm_of(arms, i) {
            Some(target) => {
                self.go_on_at(target);
                Ok(())
            }
            None => Err(Stop::Fault(5)),
        }
    }
}
