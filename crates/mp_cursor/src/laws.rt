// What the parsers of this crate promise: each function's contract is a law of them, beside the grammar.
ghost use Rattle.std.specs.Prelude.{◌≡◌, true};
ghost use Rattle.mp_ast.specs.declared.leaves.Constant.{Constant};
ghost use Rattle.mp_ast.specs.declared.symbols.Symbol.TheVariants as s;
ghost use Rattle.mp_ast.specs.LeafGrammar as grammar;
ghost use Rattle.mp_ast.specs.Rules.{Input, optional, separated, symbol};
ghost use Rattle.mp_cursor.specs.Exactness.{ReadsExactly};
ghost use Rattle.mp_cursor.specs.Leaves as leaf;
ghost use Rattle.mp_cursor.specs.LeafTokens.{but_comma, but_sign, constant_begins};
ghost use Rattle.mp_cursor.specs.Nexts.{any};
ghost use Rattle.mp_cursor.specs.Parsers as parser;
ghost use Rattle.mp_cursor.specs.Parsers.{next_token};

/// Names, numbers, strings, signs and constants (ISO 7185, 6.1 and 6.3) are read exactly: a name, a number, a string or a
/// constant before any token, a sign that may be missing before any token but a sign, and a list with commas before any
/// token but a comma.
pub fn leaves_are_read_exactly()
    ensures name { ReadsExactly any parser.identifier grammar.identifier }
    ensures number { ReadsExactly any parser.number grammar.number }
    ensures text { ReadsExactly any parser.character_string grammar.character_string }
    ensures sign { ReadsExactly but_sign leaf.optional_sign (optional grammar.sign) }
    ensures constant { ReadsExactly any leaf.constant grammar.constant }
    ensures constants { ReadsExactly but_comma leaf.constants (separated (symbol s.Comma) grammar.constant) }
    ensures names { ReadsExactly but_comma leaf.identifiers (separated (symbol s.Comma) grammar.identifier) }
{}

/// Each constant begins with a token that `begins_constant` tells.
pub fn constants_begin()
    ensures { (i : Input) (x : Constant) (j : Input) → grammar.constant i x j → constant_begins (next_token i) ≡ true }
{}
