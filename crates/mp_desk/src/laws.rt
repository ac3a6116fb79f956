// What the definitions of this crate promise: each function's contract is one law of them.
ghost use Rattle.std.specs.Prelude.{List, ℕ};
ghost use Rattle.mp_text.specs.declared.edits.Edit.{Edit};
ghost use Rattle.mp_desk.specs.Desk.{IsChangeOfEdit, IsChangeOfWhole};

/// What an edit changes in the bytes of a text makes those of the edited text of them, and what going back changes those
/// of the older text.
pub fn new_versions_are_changes()
    ensures edit { (edit : Edit) (text : List (List ℕ)) → IsChangeOfEdit edit text }
    ensures whole { (before : List (List ℕ)) (after : List (List ℕ)) → IsChangeOfWhole before after }
{}
