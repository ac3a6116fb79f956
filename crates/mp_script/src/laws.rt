// What the definitions of this crate promise: each function's contract is one law of them.
ghost use Rattle.std.specs.Prelude.{List, ℕ};
ghost use Rattle.mp_script.specs.Access.{IsFormTested};
ghost use Rattle.mp_script.specs.Keywords.{IsFoundBySpelling};
ghost use Rattle.mp_script.specs.Words.{HasItsWords, HasOneBehindWord};
ghost use Rattle.mp_script.specs.declared.access.AccessPart.{AccessPart};
ghost use Rattle.mp_script.specs.declared.keywords.Keyword.{Keyword};

/// A line has one list of words: without separators, not empty, and with separators between them.
pub fn one_list_of_words()
    ensures { (line : List ℕ) → HasItsWords line }
{}

/// A keyword is found by its spelling, and what is found is spelled so.
pub fn keywords_are_found()
    ensures { (word : List ℕ) (keyword : Keyword) → IsFoundBySpelling word keyword }
{}

/// The test of an access's form passes exactly what has that form.
pub fn access_form_is_tested()
    ensures { (parts : List AccessPart) → IsFormTested parts }
{}

/// What stands behind a line's first word is kept as it stands there, without the separators at its ends, and is the
/// only one such text: where the line has a word, that word is left out, and where it has none, nothing is found.
pub fn behind_the_first_word()
    ensures { (line : List ℕ) → HasOneBehindWord line }
{}
