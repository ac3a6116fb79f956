// What the parsers of this crate promise: each function's contract is a law of them, beside the grammar.
ghost use Rattle.std.specs.Prelude.{ℕ};
ghost use Rattle.mp_ast.specs.StatementGrammar as grammar;
ghost use Rattle.mp_cursor.specs.Exactness.{ReadsExactly};
ghost use Rattle.mp_parse_stmt.specs.Statements as spec;
ghost use Rattle.mp_parse_stmt.specs.Statements.{after_sequence, after_statement};

/// Statements, and sequences of them (ISO 7185, 6.8), are read exactly, wherever so many more openers may stand open.
pub fn statements_are_read_exactly()
    ensures statement { (room : ℕ) → ReadsExactly after_statement (spec.statement room) (grammar.statement room) }
    ensures sequence { (room : ℕ) → ReadsExactly after_sequence (spec.sequence (spec.statement room)) (grammar.sequence (grammar.statement room)) }
{}
