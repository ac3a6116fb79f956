ghost use Rattle.std.specs.Prelude.{◌≡◌, [], ◌∷◌, Decides};
ghost use Rattle.mp_memory.specs.Members.{members, is_member, with_member, joined, common, without, are_in, Covers};

/// A set of numbers below 256: a bit for each, on four lanes.
#[derive(Clone, Copy)]
pub(crate) struct Bits {
    first: u64,
    second: u64,
    third: u64,
    fourth: u64,
}

impl Bits {
    pub fn empty() -> Bits
        ensures { members result ≡ [] }
    {
        Bits {
            first: 0,
            second: 0,
            third: 0,
            fourth: 0,
        }
    }

    /// The same set, with this member.
    pub fn with(&self, member: u8) -> Bits
        ensures { members result ≡ with_member (members self.now) member }
    {
        if member < 64 {
            return Bits {
                first: self.first | 1 << member,
                second: self.second,
                third: self.third,
                fourth: self.fourth,
            };
        }
        if member < 128 {
            return Bits {
                first: self.first,
                second: self.second | 1 << (member - 64),
                third: self.third,
                fourth: self.fourth,
            };
        }
        if member < 192 {
            return Bits {
                first: self.first,
                second: self.second,
                third: self.third | 1 << (member - 128),
                fourth: self.fourth,
            };
        }
        Bits {
            first: self.first,
            second: self.second,
            third: self.third,
            fourth: self.fourth | 1 << (member - 192),
        }
    }

    pub fn has(&self, member: u8) -> bool
        ensures { result ≡ is_member (members self.now) member }
    {
        if member < 64 {
            return (self.first >> member) & 1 == 1;
        }
        if member < 128 {
            return (self.second >> (member - 64)) & 1 == 1;
        }
        if member < 192 {
            return (self.third >> (member - 128)) & 1 == 1;
        }
        (self.fourth >> (member - 192)) & 1 == 1
    }

    pub fn union(&self, other: &Bits) -> Bits
        ensures { members result ≡ joined (members self.now) (members other.now) }
    {
        Bits {
            first: self.first | other.first,
            second: self.second | other.second,
            third: self.third | other.third,
            fourth: self.fourth | other.fourth,
        }
    }

    /// What is in both.
    pub fn meet(&self, other: &Bits) -> Bits
        ensures { members result ≡ common (members self.now) (members other.now) }
    {
        Bits {
            first: self.first & other.first,
            second: self.second & other.second,
            third: self.third & other.third,
            fourth: self.fourth & other.fourth,
        }
    }

    /// What is in this set alone.
    pub fn less(&self, other: &Bits) -> Bits
        ensures { members result ≡ without (members self.now) (members other.now) }
    {
        Bits {
            first: self.first & !other.first,
            second: self.second & !other.second,
            third: self.third & !other.third,
            fourth: self.fourth & !other.fourth,
        }
    }

    /// Whether each member is in the other set.
    pub fn within(&self, other: &Bits) -> bool
        ensures { result ≡ are_in (members self.now) (members other.now) }
    {
        if !covers(other.first, self.first) {
            return false;
        }
        if !covers(other.second, self.second) {
            return false;
        }
        if !covers(other.third, self.third) {
            return false;
        }
        covers(other.fourth, self.fourth)
    }
}

// Whether each bit of the second lane is one of the first.
fn covers(lane: u64, other: u64) -> bool
    ensures { Decides result (Covers lane other) }
{
    other | lane == lane
}
