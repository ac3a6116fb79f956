// Rows that work on numbers (ISO 7185, 6.7.2).
ghost use Rattle.std.specs.Prelude.{◌≡◌, ◌≢◌, int_div, pos, ℕ};
ghost use Rattle.mp_memory.specs.Integers.{as_integer};
ghost use Rattle.mp_machine.specs.Blocks.{Path as Steps};
ghost use Rattle.mp_machine.specs.Shown.{Agrees, Fits, NoMemory, Unmoved, state_of};
ghost use Rattle.mp_machine.specs.ValueRows as value;

use crate::processor::{Processor, Stop};
use mp_code::RangeFault;
use mp_memory::{difference, integer, negated, product, sum};

fn range_fault(fault: RangeFault) -> u8
    ensures { result ≡ value.range_fault fault }
{
    match fault {
        RangeFault::OutsideType => 3,
        RangeFault::OutsideBounds => 4,
        RangeFault::NoSuchValue => 6,
    }
}

// The quotient, truncated toward zero, where it is an integer.
fn truncated_quotient(i: i64, j: i64) -> Option<i64>
    requires { j ≢ pos 0 }
    ensures { result ≡ as_integer (int_div i j) }
{
    // The one quotient that has no 64 bits is no integer.
    match i.checked_div(j) {
        Some(quotient) => integer(i128::from(quotient)),
        None => None,
    }
}

impl Processor {
    /// Puts an integer; where there is none, the result was too great.
    #[inline(always)]
    fn put_integer(&mut self, n: Option<i64>) -> Result<(), Stop>
        requires { Fits 1 self.old }
        ensures row { (paths : ℕ → Steps) → Agrees (value.put_or_overflow n (state_of paths self.old)) result (state_of paths self.new) }
        ensures kept { Unmoved self.old self.new }
        ensures memory { NoMemory result }
    {
        match n {
            Some(n) => {
                self.put_number(n);
                Ok(())
            }
            None => Err(Stop::Fault(1)),
        }
    }

    /// i j : number. Fault 1 where the sum is no integer.
    #[inline(always)]
    pub(crate) fn add(&mut self) -> Result<(), Stop>
        ensures row { (paths : ℕ → Steps) → Agrees (value.add (state_of paths self.old)) result (state_of paths self.new) }
        ensures kept { Unmoved self.old self.new }
        ensures memory { NoMemory result }
    {
        let j = self.take_number()?;
        let i = self.take_number()?;
        self.put_integer(sum(i, j))
    }

    /// i j : number. Fault 1 where the difference is no integer.
    #[inline(always)]
    pub(crate) fn subtract(&mut self) -> Result<(), Stop>
        ensures row { (paths : ℕ → Steps) → Agrees (value.sub (state_of paths self.old)) result (state_of paths self.new) }
        ensures kept { Unmoved self.old self.new }
        ensures memory { NoMemory result }
    {
        let j = self.take_number()?;
        let i = self.take_number()?;
        self.put_integer(difference(i, j))
    }

    /// i j : number. Fault 1 where the product is no integer.
    #[inline(always)]
    pub(crate) fn multiply(&mut self) -> Result<(), Stop>
        ensures row { (paths : ℕ → Steps) → Agrees (value.mul (state_of paths self.old)) result (state_of paths self.new) }
        ensures kept { Unmoved self.old self.new }
        ensures memory { NoMemory result }
    {
        let j = self.take_number()?;
        let i = self.take_number()?;
        self.put_integer(product(i, j))
    }

    /// i j : number, truncated toward zero. Fault 2 where j is 0.
    #[inline(always)]
    pub(crate) fn quotient(&mut self) -> Result<(), Stop>
        ensures row { (paths : ℕ → Steps) → Agrees (value.quotient (state_of paths self.old)) result (state_of paths self.new) }
        ensures kept { Unmoved self.old self.new }
        ensures memory { NoMemory result }
    {
        let j = self.take_number()?;
        let i = self.take_number()?;
        if j == 0 {
            return Err(Stop::Fault(2));
        }
        self.put_integer(truncated_quotient(i, j))
    }

    /// i j : the number from 0 to j - 1 that differs from i by a multiple of j. Fault 2 where j is below 1.
    #[inline(always)]
    pub(crate) fn modulus(&mut self) -> Result<(), Stop>
        ensures row { (paths : ℕ → Steps) → Agrees (value.modulus (state_of paths self.old)) result (state_of paths self.new) }
        ensures kept { Unmoved self.old self.new }
        ensures memory { NoMemory result }
    {
        let j = self.take_number()?;
        let i = self.take_number()?;
        if j <= 0 {
            return Err(Stop::Fault(2));
        }
        self.put_number(i.rem_euclid(j));
        Ok(())
    }

    /// i j : 0 or 1
    #[inline(always)]
    pub(crate) fn both(&mut self) -> Result<(), Stop>
        ensures row { (paths : ℕ → Steps) → Agrees (value.both (state_of paths self.old)) result (state_of paths self.new) }
        ensures kept { Unmoved self.old self.new }
        ensures memory { NoMemory result }
    {
        let j = self.take_number()?;
        let i = self.take_number()?;
        self.put_truth(i != 0 && j != 0);
        Ok(())
    }

    /// i j : 0 or 1
    #[inline(always)]
    pub(crate) fn either(&mut self) -> Result<(), Stop>
        ensures row { (paths : ℕ → Steps) → Agrees (value.either (state_of paths self.old)) result (state_of paths self.new) }
        ensures kept { Unmoved self.old self.new }
        ensures memory { NoMemory result }
    {
        let j = self.take_number()?;
        let i = self.take_number()?;
        self.put_truth(i != 0 || j != 0);
        Ok(())
    }

    /// i : number
    #[inline(always)]
    pub(crate) fn negate(&mut self) -> Result<(), Stop>
        ensures row { (paths : ℕ → Steps) → Agrees (value.neg (state_of paths self.old)) result (state_of paths self.new) }
        ensures kept { Unmoved self.old self.new }
        ensures memory { NoMemory result }
    {
        let i = self.take_number()?;
        self.put_integer(negated(i))
    }

    /// i : 0 or 1
    #[inline(always)]
    pub(crate) fn odd(&mut self) -> Result<(), Stop>
        ensures row { (paths : ℕ → Steps) → Agrees (value.odd (state_of paths self.old)) result (state_of paths self.new) }
        ensures kept { Unmoved self.old self.new }
        ensures memory { NoMemory result }
    {
        let i = self.take_number()?;
        self.put_truth(i % 2 != 0);
        Ok(())
    }

    /// i : 0 or 1
    #[inline(always)]
    pub(crate) fn negation(&mut self) -> Result<(), Stop>
        ensures row { (paths : ℕ → Steps) → Agrees (value.negation (state_of paths self.old)) result (state_of paths self.new) }
        ensures kept { Unmoved self.old self.new }
        ensures memory { NoMemory result }
    {
        let i = self.take_number()?;
        self.put_truth(i == 0);
        Ok(())
    }

    /// i : i. The fault where i does not lie in the range.
    #[inline(always)]
    pub(crate) fn range(&mut self, low: i64, high: i64, fault: RangeFault) -> Result<(), Stop>
        ensures row { (paths : ℕ → Steps) → Agrees (value.range low high fault (state_of paths self.old)) result (state_of paths self.new) }
        ensures kept { Unmoved self.old self.new }
        ensures memory { NoMemory result }
    {
        let i = self.take_number()?;
        if i < low || i > high {
            return Err(Stop::Fault(range_fault(fault)));
        }
        self.put_number(i);
        Ok(())
    }

    /// x : x x
    #[inline(always)]
    pub(crate) fn dup(&mut self) -> Result<(), Stop>
        requires { Fits 1 self.old }
        ensures row { (paths : ℕ → Steps) → Agrees (value.dup (state_of paths self.old)) result (state_of paths self.new) }
        ensures kept { Unmoved self.old self.new }
        ensures memory { NoMemory result }
    {
        let x = self.take_cell()?;
        self.put_cell(x.copy());
        self.put_cell(x);
        Ok(())
    }
}
