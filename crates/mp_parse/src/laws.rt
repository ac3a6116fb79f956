ghost use Rattle.std.specs.Prelude.{◌≡◌, ℕ, ◌+◌, List};
ghost use Rattle.mp_ast.specs.declared.tokens.TokenKind.{TokenKind};
ghost use Rattle.mp_ast.specs.BlockGrammar as grammar;
ghost use Rattle.mp_ast.specs.BlockGrammar.{Limits};
ghost use Rattle.mp_ast.specs.FirstError.{IsFirstError};
ghost use Rattle.mp_ast.specs.Programs.{HasTree, HaveOneTree};
ghost use Rattle.mp_cursor.specs.Exactness.{ReadsExactly};
ghost use Rattle.mp_cursor.specs.Nexts.{any};
ghost use Rattle.mp_parse.specs.Blocks.{nested_block, statement_part};
ghost use Rattle.mp_parse.specs.Errors.{IsFound, first_error};
ghost use Rattle.mp_parse.specs.Locality.{IsLocal};
ghost use Rattle.mp_parse.specs.StoppedParts.{StopsBehindItsBegin};

/// A list of tokens has at most one tree, whatever the limits are.
pub fn one_tree()
    ensures { (limits : Limits) (kinds : List TokenKind) → HaveOneTree limits kinds }
{}

/// Statement parts (ISO 7185, 6.2.1) are read exactly, before any token and wherever so many more openers may stand open.
pub fn statement_parts_are_read_exactly()
    ensures { (openers : ℕ) → ReadsExactly any (statement_part openers) (grammar.statement_part openers) }
{}

/// A statement part that begins with `begin`, and stops, stops behind that token.
pub fn statement_parts_stop_behind_their_begin()
    ensures { (more : ℕ) → StopsBehindItsBegin (statement_part (more + 1)) }
{}

/// A nested block is read by its own tokens alone: wherever they stand, the parser takes them and makes the same tree of
/// them. What follows the block's `end` makes no difference, nor where the ordinals of the block around stand, nor how
/// many declarations were made before it, where there is room for those in it.
pub fn blocks_do_not_look_around()
    ensures { (limits : Limits) (depth : ℕ) → IsLocal limits.declarations (nested_block limits depth) }
{}

/// A list of tokens has at most one first error, whatever the limits are: one index and one code.
pub fn one_first_error()
    ensures { (limits : Limits) (kinds : List TokenKind) (i j c d : ℕ) → IsFirstError limits kinds i c → IsFirstError limits kinds j d → (i ≡ j) × (c ≡ d) }
{}

/// A list of tokens that has a tree has no first error.
pub fn programs_have_no_error()
    ensures { (limits : Limits) (kinds : List TokenKind) (index code : ℕ) → HasTree limits kinds → IsFirstError limits kinds index code → ⊥ }
{}

/// Each list of tokens has a tree or a first error by the limits of the language, and the parser finds which.
pub fn first_errors_are_found()
    ensures { (kinds : List TokenKind) → IsFound kinds (first_error kinds) }
{}
