// Laws of the definitions of this crate: each function's contract is one.
ghost use Rattle.mp_memory.specs.Roots.{CellsAreLaidOver};
ghost use Rattle.mp_memory.specs.Sets.{NumbersAreARange, SetsAreByMembersLaw};

/// The numbers below 256 are those of std's range.
pub fn numbers_are_a_range()
    ensures { NumbersAreARange }
{}

/// What each operation makes of two sets is the set of the members that one expects; inclusion says that each member is
/// one of the other, and both ways that the sets are equal.
pub fn sets_are_by_members()
    ensures { SetsAreByMembersLaw }
{}

/// Where cells are laid over others, each of the new ones stands in its place, and all others are as they were.
pub fn cells_are_laid_over()
    ensures { CellsAreLaidOver }
{}
