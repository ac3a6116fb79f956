// What the definitions of this crate promise: each function's contract is one law of them.
ghost use Rattle.std.specs.Prelude.{◌≡◌, ◌↔◌, IsTrue};
ghost use Rattle.mp_edge.specs.Interrupts.{is_interrupt};
ghost use Rattle.mp_edge.specs.declared.tries.TheConstants.{TRIES};

use std::io::ErrorKind;

/// An interruption is an error of the one kind that std has for it.
pub fn interruptions_are_of_one_kind()
    ensures { (kind : ErrorKind) → IsTrue (is_interrupt kind) ↔ (kind ≡ ErrorKind.Interrupted) }
{}

/// The number of tries, which contracts cite by its name alone.
pub fn number_of_tries()
    ensures { TRIES ≡ 16 }
{}
