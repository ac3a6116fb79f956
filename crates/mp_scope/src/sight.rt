ghost use Rattle.std.specs.Prelude.{◌≡◌, IfOk};
ghost use Rattle.mp_scope.specs.Lent.{seen_of};

use mp_base::Memory;
use mp_tables::{Decl, Required, Seen};

/// What a name is at a place, lent.
#[derive(Clone, Copy)]
pub enum Sight<'a> {
    Is(&'a Decl),
    Required(Required),
    NotYet,
    Absent,
}

/// The same, as an answer of its own.
pub fn copied(sight: Sight<'_>) -> Result<Seen, Memory>
    ensures { IfOk result (λ seen. seen ≡ seen_of sight.entry) }
{
    match sight {
        Sight::Is(decl) => Ok(Seen::Is(decl.copy()?)),
        Sight::Required(required) => Ok(Seen::Is(Decl::Required(required))),
        Sight::NotYet => Ok(Seen::NotYet),
        Sight::Absent => Ok(Seen::Absent),
    }
}
