// What the parsers of this crate promise: each function's contract is a law of them, beside the grammar.
ghost use Rattle.std.specs.Prelude.{ℕ};
ghost use Rattle.mp_ast.specs.ExpressionGrammar as grammar;
ghost use Rattle.mp_cursor.specs.Exactness.{ReadsExactly};
ghost use Rattle.mp_cursor.specs.Nexts.{any};
ghost use Rattle.mp_parse_expr.specs.Expressions as spec;
ghost use Rattle.mp_parse_expr.specs.ExpressionFollows.{after_access, after_expression};

/// Expressions, variables and actual parameters (ISO 7185, 6.5.1, 6.7.1 and 6.7.3) are read exactly, wherever so many more
/// openers may stand open.
pub fn expressions_are_read_exactly()
    ensures expression { (room : ℕ) → ReadsExactly after_expression (spec.expression room) (grammar.expression room) }
    ensures access { (room : ℕ) → ReadsExactly after_access (spec.access room) (grammar.access room) }
    ensures actuals { (room : ℕ) → ReadsExactly any (spec.actuals room) (grammar.actuals room) }
{}
