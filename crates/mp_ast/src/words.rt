ghost use Rattle.std.specs.Prelude.{◌≡◌};

/// A word-symbol (ISO 7185, 6.1.2). Letter case is not significant in its spelling (6.1.1).
#[derive(Clone, Copy, PartialEq, Eq)]
pub enum WordSymbol {
    And,
    Array,
    Begin,
    Case,
    Const,
    Div,
    Do,
    Downto,
    Else,
    End,
    File,
    For,
    Function,
    Goto,
    If,
    In,
    Label,
    Mod,
    Nil,
    Not,
    Of,
    Or,
    Packed,
    Procedure,
    Program,
    Record,
    Repeat,
    Set,
    Then,
    To,
    Type,
    Until,
    Var,
    While,
    With,
}

impl WordSymbol {
    ghost use Rattle.mp_ast.specs.Words.{spelling};

    /// How the word-symbol is written, in lower case.
    pub fn spelling(self) -> &'static str
        ensures { result.now ≡ spelling self }
    {
        match self {
            WordSymbol::And => "and",
            WordSymbol::Array => "array",
            WordSymbol::Begin => "begin",
            WordSymbol::Case => "case",
            WordSymbol::Const => "const",
            WordSymbol::Div => "div",
            WordSymbol::Do => "do",
            WordSymbol::Downto => "downto",
            WordSymbol::Else => "else",
            WordSymbol::End => "end",
            WordSymbol::File => "file",
            WordSymbol::For => "for",
            WordSymbol::Function => "function",
            WordSymbol::Goto => "goto",
            WordSymbol::If => "if",
            WordSymbol::In => "in",
            WordSymbol::Label => "label",
            WordSymbol::Mod => "mod",
            WordSymbol::Nil => "nil",
            WordSymbol::Not => "not",
            WordSymbol::Of => "of",
            WordSymbol::Or => "or",
            WordSymbol::Packed => "packed",
            WordSymbol::Procedure => "procedure",
            WordSymbol::Program => "program",
            WordSymbol::Record => "record",
            WordSymbol::Repeat => "repeat",
            WordSymbol::Set => "set",
            WordSymbol::Then => "then",
            WordSymbol::To => "to",
            WordSymbol::Type => "type",
            WordSymbol::Until => "until",
            WordSymbol::Var => "var",
            WordSymbol::While => "while",
            WordSymbol::With => "with",
        }
    }
}
