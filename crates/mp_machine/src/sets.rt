// Rows on sets (ISO 7185, 6.7.1, 6.7.2.4, 6.7.2.5).
ghost use Rattle.std.specs.Prelude.{◌≡◌, ℕ, true};
ghost use Rattle.mp_memory.specs.Sets.{union, with_member};
ghost use Rattle.mp_machine.specs.Blocks.{Path as Steps};
ghost use Rattle.mp_machine.specs.Numbers.{lies_in, may_be_member, members_lie_in, natural, numbers_from, stands_in};
ghost use Rattle.mp_machine.specs.Shown.{Agrees, NoMemory, Unmoved, state_of};
ghost use Rattle.mp_machine.specs.ValueRows as value;

use crate::processor::{Processor, Stop};
use mp_memory::MemberSet;

fn lies_in(low: i64, high: i64, n: i64) -> bool
    ensures { result ≡ lies_in low high n }
{
    low <= n && n <= high
}

// Whether all members lie between the two numbers.
fn lie_between(low: i64, high: i64, set: &MemberSet) -> bool
    ensures { result ≡ members_lie_in low high set.now }
{
    let set = set.copy();
    'members: for member in 0..256u16 {
        if set.has(member as u8) {
            if !lies_in(low, high, i64::from(member)) {
                return false;
            }
        }
    }
    true
}

// Whether a set may have the number.
fn may_be_member(i: i64) -> bool
    ensures { result ≡ may_be_member i }
{
    0 <= i && i <= 255
}

// The number as a member.
fn member(i: i64) -> u8
    requires { may_be_member i ≡ true }
    ensures { result ≡ natural i }
{
    i as u8
}

// Whether the set has the number, which may be none that a set can have.
fn has_number(i: i64, set: &MemberSet) -> bool
    ensures { result ≡ stands_in i set.now }
{
    let set = set.copy();
    if !may_be_member(i) {
        return false;
    }
    set.has(member(i))
}

fn with_number(set: &MemberSet, i: i64) -> MemberSet
    requires { may_be_member i ≡ true }
    ensures { result ≡ with_member set.now (natural i) }
{
    set.with(member(i))
}

// The set with all numbers from the first to the last.
fn with_all(set: &MemberSet, first: u8, last: u8) -> MemberSet
    ensures { result ≡ union set.now (numbers_from first last) }
{
    if first > last {
        return set.copy();
    }
    let mut all = set.copy();
    'members: for member in u16::from(first)..u16::from(last) + 1 {
        all = all.with(member as u8);
    }
    all
}

fn with_numbers(set: &MemberSet, i: i64, j: i64) -> MemberSet
    requires first { may_be_member i ≡ true }
    requires last { may_be_member j ≡ true }
    ensures { result ≡ union set.now (numbers_from (natural i) (natural j)) }
{
    with_all(set, member(i), member(j))
}

impl Processor {
    /// set : set. Fault 3 where a member does not lie in the range.
    pub(crate) fn within(&mut self, low: i64, high: i64) -> Result<(), Stop>
        ensures row { (paths : ℕ → Steps) → Agrees (value.within low high (state_of paths self.old)) result (state_of paths self.new) }
        ensures kept { Unmoved self.old self.new }
        ensures memory { NoMemory result }
    {
        let set = self.take_members()?;
        if !lie_between(low, high, &set) {
            return Err(Stop::Fault(3));
        }
        self.put_members(set);
        Ok(())
    }

    /// i set : 0 or 1
    #[inline(always)]
    pub(crate) fn has(&mut self) -> Result<(), Stop>
        ensures row { (paths : ℕ → Steps) → Agrees (value.has (state_of paths self.old)) result (state_of paths self.new) }
        ensures kept { Unmoved self.old self.new }
        ensures memory { NoMemory result }
    {
        let set = self.take_members()?;
        let i = self.take_number()?;
        self.put_truth(has_number(i, &set));
        Ok(())
    }

    /// set i : set with i. Fault 15 where i may be no member.
    #[inline(always)]
    pub(crate) fn with_one(&mut self) -> Result<(), Stop>
        ensures row { (paths : ℕ → Steps) → Agrees (value.one (state_of paths self.old)) result (state_of paths self.new) }
        ensures kept { Unmoved self.old self.new }
        ensures memory { NoMemory result }
    {
        let i = self.take_number()?;
        let set = self.take_members()?;
        if !may_be_member(i) {
            return Err(Stop::Fault(15));
        }
        self.put_members(with_number(&set, i));
        Ok(())
    }

    /// set i j : set with all from i to j. Fault 15 where one of them may be no member.
    pub(crate) fn with_span(&mut self) -> Result<(), Stop>
        ensures row { (paths : ℕ → Steps) → Agrees (value.span (state_of paths self.old)) result (state_of paths self.new) }
        ensures kept { Unmoved self.old self.new }
        ensures memory { NoMemory result }
    {
        let j = self.take_number()?;
        let i = self.take_number()?;
        let set = self.take_members()?;
        if j < i {
            self.put_members(set);
            return Ok(());
        }
        if !may_be_member(i) {
            return Err(Stop::Fault(15));
        }
        if !may_be_member(j) {
            return Err(Stop::Fault(15));
        }
        self.put_members(with_numbers(&set, i, j));
        Ok(())
    }

    /// set set : set of the members of one or the other
    #[inline(always)]
    pub(crate) fn join(&mut self) -> Result<(), Stop>
        ensures row { (paths : ℕ → Steps) → Agrees (value.join (state_of paths self.old)) result (state_of paths self.new) }
        ensures kept { Unmoved self.old self.new }
        ensures memory { NoMemory result }
    {
        let b = self.take_members()?;
        let a = self.take_members()?;
        self.put_members(a.union(&b));
        Ok(())
    }

    /// set set : set of the members of both
    #[inline(always)]
    pub(crate) fn meet(&mut self) -> Result<(), Stop>
        ensures row { (paths : ℕ → Steps) → Agrees (value.meet (state_of paths self.old)) result (state_of paths self.new) }
        ensures kept { Unmoved self.old self.new }
        ensures memory { NoMemory result }
    {
        let b = self.take_members()?;
        let a = self.take_members()?;
        self.put_members(a.meet(&b));
        Ok(())
    }

    /// set set : set of the members of the first alone
    #[inline(always)]
    pub(crate) fn less(&mut self) -> Result<(), Stop>
        ensures row { (paths : ℕ → Steps) → Agrees (value.less (state_of paths self.old)) result (state_of paths self.new) }
        ensures kept { Unmoved self.old self.new }
        ensures memory { NoMemory result }
    {
        let b = self.take_members()?;
        let a = self.take_members()?;
        self.put_members(a.less(&b));
        Ok(())
    }
}
