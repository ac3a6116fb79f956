// What the definitions of this crate promise: each function's contract is one law of them.
ghost use Rattle.std.specs.Prelude.{List, ℕ};
ghost use Rattle.mp_text.specs.Changes.{IsByteChange, SplicesLines};
ghost use Rattle.mp_text.specs.Edits.{IsInRange, edited};
ghost use Rattle.mp_text.specs.Meant.{HasItsSize, IsRangeTested, MakesOneText};
ghost use Rattle.mp_text.specs.declared.edits.Edit.{Edit};

/// An edit is refused for its numbers exactly where they are not in range.
pub fn range_is_tested()
    ensures { (edit : Edit) (text : List (List ℕ)) → IsRangeTested edit text }
{}

/// An edit in range changes the lines, or the bytes, that it names, and no others: what stands before its place stays
/// there, what stands behind it is shifted, and there is only one such text.
pub fn edits_change_their_place()
    ensures { (edit : Edit) (text : List (List ℕ)) → MakesOneText edit text }
{}

/// The new text has as many lines and bytes as the old one, less those that are taken away, and those that are brought.
pub fn sizes_of_edits()
    ensures { (edit : Edit) (text : List (List ℕ)) → IsInRange edit text → HasItsSize edit text (edited edit text) }
{}

/// An edit that is in range changes a text's bytes at one place.
pub fn edit_is_a_byte_change()
    ensures { (edit : Edit) (text : List (List ℕ)) → IsInRange edit text → IsByteChange edit text }
{}

/// The lines of a text's bytes, changed so, are the edited text.
pub fn edited_lines()
    ensures { (edit : Edit) (text : List (List ℕ)) → SplicesLines edit text }
{}
