use mp_base::Memory;
use std::alloc::AllocError;

/// Why there is no tree. A place is told by how many tokens there are from it on.
#[derive(Clone, Copy)]
pub enum Failure {
    Memory,
    /// The token there is none that may stand there.
    Wrong(usize),
    /// The token there may stand there, but too many openers, or too many blocks, stand around it.
    TooDeep(usize),
    /// The token there begins a declaration too many.
    TooMany(usize),
}

impl From<Memory> for Failure {
    ghost use Rattle.std.specs.Prelude.{◌≡◌};
    ghost use Rattle.mp_cursor.specs.declared.failure.Failure.TheVariants as failure;

    ghost from_gives = { λ _ e. e ≡ failure.Memory };

    fn from(_: Memory) -> Failure {
        Failure::Memory
    }
}

impl From<AllocError> for Failure {
    ghost use Rattle.std.specs.Prelude.{◌≡◌};
    ghost use Rattle.mp_cursor.specs.declared.failure.Failure.TheVariants as failure;

    ghost from_gives = { λ _ e. e ≡ failure.Memory };

    fn from(_: AllocError) -> Failure {
        Failure::Memory
    }
}
