ghost use Rattle.std.specs.Prelude.{◌≡◌, ◌≢◌, IfErr};
ghost use Rattle.mp_cursor.specs.Parsers.{Reads};
ghost use Rattle.mp_cursor.specs.declared.failure.Failure.TheVariants as failure;
ghost use Rattle.mp_parse_stmt.specs.Statements as spec;

use mp_ast::{Actual, Expr, Identifier, Statement, Symbol, WordSymbol};
use mp_cursor::{Cursor, Failure, Next};
use mp_parse_expr::{access_behind, actuals, expression};
use sqlite_items::Items;
use std::alloc::Global;

// In these functions `room` is how many more openers may stand open.

#[tactic(auto, unfolding(crate::specs::Statements::assignment_behind))]
fn assignment_behind(
    alloc: Global,
    tokens: &mut Cursor<'_>,
    room: usize,
    name: Identifier,
) -> Result<Statement, Failure>
    ensures { Reads (spec.assignment_behind room name tokens.old) result tokens.new }
{
    let variable = access_behind(alloc, tokens, room, name)?;
    let at = tokens.expect(Next::Symbol(Symbol::Assign))?;
    let value = expression(alloc, tokens, room)?;
    Ok(Statement::Assign(variable, at, value))
}

fn optional_actuals(
    alloc: Global,
    tokens: &mut Cursor<'_>,
    room: usize,
) -> Result<Items<Actual<Expr>>, Failure>
    ensures { Reads (spec.optional_actuals room tokens.old) result tokens.new }
{
    if !tokens.sees(Next::Symbol(Symbol::LeftParen)) {
        return Ok(Items::new(alloc));
    }
    actuals(alloc, tokens, room)
}

// Whether the token tells, behind a name, that the name begins an assignment.
fn is_assigning(next: Next) -> bool
    ensures { result ≡ spec.assigning next }
{
    matches!(
        next,
        Next::Symbol(Symbol::LeftBracket | Symbol::Dot | Symbol::Caret | Symbol::Assign)
    )
}

/// An assignment or a procedure call (ISO 7185, 6.8.2.2 and 6.8.2.3).
#[tactic(auto, unfolding(crate::specs::Statements::named))]
pub(crate) fn named(
    alloc: Global,
    tokens: &mut Cursor<'_>,
    room: usize,
) -> Result<Statement, Failure>
    ensures { Reads (spec.named room tokens.old) result tokens.new }
{
    let name = tokens.identifier()?;
    if is_assigning(tokens.next()) {
        return assignment_behind(alloc, tokens, room, name);
    }
    let given = optional_actuals(alloc, tokens, room)?;
    Ok(Statement::Call(name, given))
}

/// A goto statement (ISO 7185, 6.8.2.4).
#[tactic(auto, unfolding(crate::specs::Statements::goto_statement))]
pub(crate) fn goto_statement(tokens: &mut Cursor<'_>) -> Result<Statement, Failure>
    ensures reads { Reads (spec.goto_statement tokens.old) result tokens.new }
    ensures memory { IfErr result (λ e. e ≢ failure.Memory) }
{
    let at = tokens.expect(Next::Word(WordSymbol::Goto))?;
    let label = tokens.number()?;
    Ok(Statement::Goto(at, label))
}
