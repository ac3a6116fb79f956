ghost use Rattle.std.specs.Prelude.{◌≡◌, []};
ghost use Rattle.mp_memory.specs.Sets.{IsSet, difference, intersection, is_included, is_member, union, with_member};

use crate::bits::Bits;
use std::marker::Model;

/// A set of numbers below 256 (ISO 7185, 6.4.3.4), a bit for each. To a contract it is the list of its members, which
/// ascends.
#[derive(Drop)]
pub struct MemberSet {
    bits: Bits,
}

impl Model for MemberSet {
    ghost use Rattle.std.specs.Prelude.{List, ℕ};
    ghost use Rattle.mp_memory.specs.Members.{members};

    ghost Value = { List ℕ };

    ghost view = { λ set. members set.bits };
}

impl MemberSet {
    /// The set without members.
    pub fn empty() -> MemberSet
        ensures { result ≡ [] }
    {
        MemberSet {
            bits: Bits::empty(),
        }
    }

    /// The same set, with this member.
    pub fn with(&self, member: u8) -> MemberSet
        ensures { result ≡ with_member self.now member }
    {
        MemberSet {
            bits: self.bits.with(member),
        }
    }

    /// Whether the number is a member.
    pub fn has(&self, member: u8) -> bool
        ensures { result ≡ is_member member self.now }
    {
        self.bits.has(member)
    }

    /// What is in one or the other.
    pub fn union(&self, other: &MemberSet) -> MemberSet
        ensures { result ≡ union self.now other.now }
    {
        MemberSet {
            bits: self.bits.union(&other.bits),
        }
    }

    /// What is in both.
    pub fn meet(&self, other: &MemberSet) -> MemberSet
        ensures { result ≡ intersection self.now other.now }
    {
        MemberSet {
            bits: self.bits.meet(&other.bits),
        }
    }

    /// What is in this set alone.
    pub fn less(&self, other: &MemberSet) -> MemberSet
        ensures { result ≡ difference self.now other.now }
    {
        MemberSet {
            bits: self.bits.less(&other.bits),
        }
    }

    /// Whether each member is in the other set.
    pub fn within(&self, other: &MemberSet) -> bool
        ensures { result ≡ is_included self.now other.now }
    {
        self.bits.within(&other.bits)
    }

    /// The same set.
    pub fn copy(&self) -> MemberSet
        ensures same { result ≡ self.now }
        ensures set { IsSet result }
    {
        MemberSet { bits: self.bits }
    }
}
