ghost use Rattle.std.specs.Prelude.{◌≡◌, ◌≢◌, IfErr};
ghost use Rattle.mp_cursor.specs.Parsers.{Reads};
ghost use Rattle.mp_cursor.specs.declared.failure.Failure.TheVariants as failure;
ghost use Rattle.mp_parse_expr.specs.Expressions as expressions;
ghost use Rattle.mp_parse_stmt.specs.Statements as spec;

use mp_ast::{Access, Direction, Expr, ForHead, Symbol, WordSymbol};
use mp_cursor::{Cursor, Failure, Next, Production, separated};
use mp_parse_expr::{access, expression};
use sqlite_items::{Boxed, Items};
use std::alloc::Global;

// In these functions `room` is how many more openers may stand open.

#[tactic(auto, unfolding(mp_cursor::specs::Parsers::expect, crate::specs::Statements::direction))]
fn direction(tokens: &mut Cursor<'_>) -> Result<Direction, Failure>
    ensures reads { Reads (spec.direction tokens.old) result tokens.new }
    ensures memory { IfErr result (λ e. e ≢ failure.Memory) }
{
    if tokens.takes(Next::Word(WordSymbol::To)) {
        return Ok(Direction::To);
    }
    tokens.expect(Next::Word(WordSymbol::Downto))?;
    Ok(Direction::Downto)
}

#[tactic(auto, unfolding(crate::specs::Statements::for_head))]
fn head_of_for(alloc: Global, tokens: &mut Cursor<'_>, room: usize) -> Result<ForHead, Failure>
    ensures { Reads (spec.for_head (expressions.expression room) tokens.old) result tokens.new }
{
    let variable = tokens.identifier()?;
    let assign = tokens.expect(Next::Symbol(Symbol::Assign))?;
    let first = Boxed::new(alloc, expression(alloc, tokens, room)?)?;
    let direction = direction(tokens)?;
    let last = Boxed::new(alloc, expression(alloc, tokens, room)?)?;
    Ok(ForHead {
        variable,
        assign,
        first,
        direction,
        last,
    })
}

/// The control variable and the limits of a for statement (ISO 7185, 6.8.3.9).
pub(crate) fn for_head(
    alloc: Global,
    tokens: &mut Cursor<'_>,
    room: usize,
) -> Result<Boxed<ForHead>, Failure>
    ensures { Reads (spec.for_head (expressions.expression room) tokens.old) result tokens.new }
{
    let head = head_of_for(alloc, tokens, room)?;
    Ok(Boxed::new(alloc, head)?)
}

#[derive(Drop)]
struct Record {
    alloc: Global,
    room: usize,
}

impl Production for Record {
    type Item = Access<Expr>;

    ghost parser = { λ one. expressions.access one.room };

    fn read(&self, tokens: &mut Cursor<'_>) -> Result<Access<Expr>, Failure> {
        access(self.alloc, tokens, self.room)
    }
}

/// The records of a with statement (ISO 7185, 6.8.3.10).
pub(crate) fn records(
    alloc: Global,
    tokens: &mut Cursor<'_>,
    room: usize,
) -> Result<Items<Access<Expr>>, Failure>
    ensures { Reads (spec.records (expressions.access room) tokens.old) result tokens.new }
{
    separated(alloc, tokens, Symbol::Comma, &Record { alloc, room })
}
