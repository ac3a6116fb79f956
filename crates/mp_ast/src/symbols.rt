/// A special symbol that is no word-symbol (ISO 7185, 6.1.2), whichever of its spellings stands in the text (6.1.9).
#[derive(Clone, Copy, Debug, PartialEq, Eq)]
pub enum Symbol {
    /// `+`
    Plus,
    /// `-`
    Minus,
    /// `*`
    Star,
    /// `=`
    Equal,
    /// `<`
    Less,
    /// `>`
    Greater,
    /// `[` or `(.`
    LeftBracket,
    /// `]` or `.)`
    RightBracket,
    /// `.`
    Dot,
    /// `,`
    Comma,
    /// `:`
    Colon,
    /// `;`
    Semicolon,
    /// `^` or `@`
    Caret,
    /// `(`
    LeftParen,
    /// `)`
    RightParen,
    /// `<>`
    NotEqual,
    /// `<=`
    LessEqual,
    /// `>=`
    GreaterEqual,
    /// `:=`
    Assign,
    /// `..`
    DotDot,
}
