ghost use Rattle.std.specs.Prelude.{◌≡◌, ◌≢◌, IfErr};
ghost use Rattle.mp_cursor.specs.Parsers.{Reads};
ghost use Rattle.mp_cursor.specs.declared.failure.Failure.TheVariants as failure;
ghost use Rattle.mp_parse_expr.specs.Operators as spec;

use mp_ast::{Operator, Symbol, WordSymbol};
use mp_cursor::{Cursor, Failure, Next};

// An operator that is written so.
fn written(
    tokens: &mut Cursor<'_>,
    next: Next,
    operator: Operator,
) -> Result<(u32, Operator), Failure>
    ensures reads { Reads (spec.written next operator tokens.old) result tokens.new }
    ensures memory { IfErr result (λ e. e ≢ failure.Memory) }
{
    let at = tokens.expect(next)?;
    Ok((at, operator))
}

/// Whether the token is a relational operator.
pub fn is_relational(next: Next) -> bool
    ensures { result ≡ spec.relational next }
{
    matches!(
        next,
        Next::Symbol(
            Symbol::Equal
                | Symbol::NotEqual
                | Symbol::Less
                | Symbol::LessEqual
                | Symbol::Greater
                | Symbol::GreaterEqual
        ) | Next::Word(WordSymbol::In)
    )
}

/// A relational operator, with its ordinal (ISO 7185, 6.7.2.5).
#[tactic(auto, unfolding(crate::specs::Operators::relational_operator))]
pub fn relational_operator(tokens: &mut Cursor<'_>) -> Result<(u32, Operator), Failure>
    ensures reads { Reads (spec.relational_operator tokens.old) result tokens.new }
    ensures memory { IfErr result (λ e. e ≢ failure.Memory) }
{
    match tokens.next() {
        Next::Symbol(Symbol::Equal) => written(
            tokens,
            Next::Symbol(Symbol::Equal),
            Operator::Equal,
        ),
        Next::Symbol(Symbol::NotEqual) => written(
            tokens,
            Next::Symbol(Symbol::NotEqual),
            Operator::NotEqual,
        ),
        Next::Symbol(Symbol::Less) => written(tokens, Next::Symbol(Symbol::Less), Operator::Less),
        Next::Symbol(Symbol::LessEqual) => written(
            tokens,
            Next::Symbol(Symbol::LessEqual),
            Operator::LessOrEqual,
        ),
        Next::Symbol(Symbol::Greater) => written(
            tokens,
            Next::Symbol(Symbol::Greater),
            Operator::Greater,
        ),
        Next::Symbol(Symbol::GreaterEqual) => written(
            tokens,
            Next::Symbol(Symbol::GreaterEqual),
            Operator::GreaterOrEqual,
        ),
        _ => written(tokens, Next::Word(WordSymbol::In), Operator::In),
    }
}

/// Whether the token is an adding operator.
pub fn is_adding(next: Next) -> bool
    ensures { result ≡ spec.adding next }
{
    matches!(
        next,
        Next::Symbol(Symbol::Plus | Symbol::Minus) | Next::Word(WordSymbol::Or)
    )
}

/// An adding operator, with its ordinal (ISO 7185, 6.7.2.1).
#[tactic(auto, unfolding(crate::specs::Operators::adding_operator))]
pub fn adding_operator(tokens: &mut Cursor<'_>) -> Result<(u32, Operator), Failure>
    ensures reads { Reads (spec.adding_operator tokens.old) result tokens.new }
    ensures memory { IfErr result (λ e. e ≢ failure.Memory) }
{
    match tokens.next() {
        Next::Symbol(Symbol::Plus) => written(tokens, Next::Symbol(Symbol::Plus), Operator::Add),
        Next::Symbol(Symbol::Minus) => written(
            tokens,
            Next::Symbol(Symbol::Minus),
            Operator::Subtract,
        ),
        _ => written(tokens, Next::Word(WordSymbol::Or), Operator::Or),
    }
}

/// Whether the token is a multiplying operator.
pub fn is_multiplying(next: Next) -> bool
    ensures { result ≡ spec.multiplying next }
{
    matches!(
        next,
        Next::Symbol(Symbol::Star) | Next::Word(WordSymbol::Div | WordSymbol::Mod | WordSymbol::And)
    )
}

/// A multiplying operator, with its ordinal (ISO 7185, 6.7.2.1).
#[tactic(auto, unfolding(crate::specs::Operators::multiplying_operator))]
pub fn multiplying_operator(tokens: &mut Cursor<'_>) -> Result<(u32, Operator), Failure>
    ensures reads { Reads (spec.multiplying_operator tokens.old) result tokens.new }
    ensures memory { IfErr result (λ e. e ≢ failure.Memory) }
{
    match tokens.next() {
        Next::Symbol(Symbol::Star) => written(
            tokens,
            Next::Symbol(Symbol::Star),
            Operator::Multiply,
        ),
        Next::Word(WordSymbol::Div) => written(tokens, Next::Word(WordSymbol::Div), Operator::Div),
        Next::Word(WordSymbol::Mod) => written(tokens, Next::Word(WordSymbol::Mod), Operator::Mod),
        _ => written(tokens, Next::Word(WordSymbol::And), Operator::And),
    }
}
