// What the parsers of this crate promise: each function's contract is a law of them, beside the grammar.
ghost use Rattle.std.specs.Prelude.{ℕ};
ghost use Rattle.mp_ast.specs.HeadingGrammar as heading_grammar;
ghost use Rattle.mp_ast.specs.TypeGrammar as grammar;
ghost use Rattle.mp_cursor.specs.Exactness.{ReadsExactly};
ghost use Rattle.mp_parse_type.specs.Headings as headings;
ghost use Rattle.mp_parse_type.specs.Headings.{after_heading};
ghost use Rattle.mp_parse_type.specs.Types as spec;
ghost use Rattle.mp_parse_type.specs.Types.{after_denoter};

/// Type denoters, sections of names of one type, and headings (ISO 7185, 6.4.1, 6.5.1 and 6.6) are read exactly, wherever
/// so many more openers may stand open.
pub fn types_are_read_exactly()
    ensures denoter { (room : ℕ) → ReadsExactly after_denoter (spec.denoter room) (grammar.denoter room) }
    ensures section { (room : ℕ) → ReadsExactly after_denoter (spec.section (spec.denoter room)) (grammar.section (grammar.denoter room)) }
    ensures heading { (room : ℕ) → ReadsExactly after_heading (headings.heading room) (heading_grammar.heading room) }
{}
