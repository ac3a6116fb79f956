// Laws of the shape of code: each function's contract is one.
ghost use Rattle.mp_code.specs.Shape.{FirstBadIsLeast};
ghost use Rattle.mp_code.specs.Reached.{ReachedIsServed};

/// The index that `first_bad` finds is the least at which a clause fails, and none is found exactly where none fails.
pub fn first_bad_is_least()
    ensures { FirstBadIsLeast }
{}

/// Wherever code of the right shape is come to, an instruction stands that has its operands.
pub fn reached_is_served()
    ensures { ReachedIsServed }
{}
