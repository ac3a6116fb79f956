#![tactic(auto, using(mp_cursor::proofs::LoopLemmas::loop_more, mp_cursor::proofs::LoopLemmas::loop_done, mp_cursor::proofs::LoopLemmas::series_more, mp_cursor::proofs::LoopLemmas::series_done), unfolding(mp_cursor::specs::Parsers::expect, mp_cursor::specs::Parsers::repeated, mp_cursor::specs::Parsers::repeated_series, crate::specs::Statements::further_statement, crate::specs::Statements::further_arm))]

ghost use Rattle.std.specs.Prelude.{◌≡◌, ◌<◌, [], ◌∷◌};
ghost use Rattle.mp_cursor.specs.Parsers.{Reads};
ghost use Rattle.mp_parse_stmt.specs.Statements as spec;
ghost use Rattle.mp_parse_stmt.specs.Statements.{behind};

use crate::heads::{for_head, records};
use crate::simple::{goto_statement, named};
use mp_ast::{Arm, Statement, Symbol, WordSymbol};
use mp_cursor::{Cursor, Failure, Next, begins_constant, constants, single};
use mp_parse_expr::expression;
use sqlite_items::{Boxed, Items};
use std::alloc::Global;

// In these functions `room` is how many more openers may stand open. Each loop takes a token a turn.

// ---- what has statements in it

#[cycle(statements)]
fn further_statements(
    alloc: Global,
    tokens: &mut Cursor<'_>,
    room: usize,
    first: Items<Statement>,
) -> Result<Items<Statement>, Failure>
    ensures { Reads (spec.further_statements (spec.statement room) first tokens.old) result tokens.new }
{
    let mut found = first;
    'statements: for _turn in 0..tokens.left() {
        if !tokens.takes(Next::Symbol(Symbol::Semicolon)) {
            return Ok(found);
        }
        found.push(statement(alloc, tokens, room)?)?;
    }
    Ok(found)
}

/// Statements with semicolons between them (ISO 7185, 6.8.3.1), where so many more openers may stand open.
#[cycle(statements)]
#[tactic(auto, unfolding(crate::specs::Statements::sequence))]
pub fn sequence(
    alloc: Global,
    tokens: &mut Cursor<'_>,
    room: usize,
) -> Result<Items<Statement>, Failure>
    ensures { Reads (spec.sequence (spec.statement room) tokens.old) result tokens.new }
{
    let first = statement(alloc, tokens, room)?;
    let found = single(alloc, first)?;
    further_statements(alloc, tokens, room, found)
}

// The statement behind `else`, where `else` stands next.
#[cycle(statements)]
#[tactic(auto, unfolding(mp_cursor::specs::Parsers::expect, crate::specs::Statements::else_part))]
fn else_part(
    alloc: Global,
    tokens: &mut Cursor<'_>,
    room: usize,
) -> Result<Option<Boxed<Statement>>, Failure>
    ensures { Reads (spec.else_part (spec.statement room) tokens.old) result tokens.new }
{
    if !tokens.takes(Next::Word(WordSymbol::Else)) {
        return Ok(None);
    }
    let second = statement(alloc, tokens, room)?;
    Ok(Some(Boxed::new(alloc, second)?))
}

#[cycle(statements)]
#[tactic(auto, unfolding(crate::specs::Statements::arm))]
fn arm(alloc: Global, tokens: &mut Cursor<'_>, room: usize) -> Result<Arm<Statement>, Failure>
    ensures { Reads (spec.arm (spec.statement room) tokens.old) result tokens.new }
{
    let constants = constants(alloc, tokens)?;
    tokens.expect(Next::Symbol(Symbol::Colon))?;
    let body = statement(alloc, tokens, room)?;
    Ok(Arm { constants, body })
}

#[cycle(statements)]
fn further_arms(
    alloc: Global,
    tokens: &mut Cursor<'_>,
    room: usize,
    first: Items<Arm<Statement>>,
) -> Result<Items<Arm<Statement>>, Failure>
    ensures { Reads (spec.further_arms (spec.statement room) first tokens.old) result tokens.new }
{
    let mut found = first;
    'arms: for _turn in 0..tokens.left() {
        if !tokens.takes(Next::Symbol(Symbol::Semicolon)) {
            return Ok(found);
        }
        if !begins_constant(tokens.next()) {
            return Ok(found);
        }
        found.push(arm(alloc, tokens, room)?)?;
    }
    Ok(found)
}

// Arms with semicolons between them, and perhaps one more semicolon.
#[cycle(statements)]
#[tactic(auto, unfolding(crate::specs::Statements::arms))]
fn arms(
    alloc: Global,
    tokens: &mut Cursor<'_>,
    room: usize,
) -> Result<Items<Arm<Statement>>, Failure>
    ensures { Reads (spec.arms (spec.statement room) tokens.old) result tokens.new }
{
    let first = arm(alloc, tokens, room)?;
    let found = single(alloc, first)?;
    further_arms(alloc, tokens, room, found)
}

// ---- structured statements

#[cycle(statements)]
#[tactic(auto, using(crate::proofs::RoomLemmas::behind_is), unfolding(crate::specs::Statements::compound_statement))]
fn compound_statement(
    alloc: Global,
    tokens: &mut Cursor<'_>,
    room: usize,
) -> Result<Statement, Failure>
    ensures { Reads (spec.compound_statement room (behind room) tokens.old) result tokens.new }
{
    let at = tokens.open(Next::Word(WordSymbol::Begin), room)?;
    let statements = sequence(alloc, tokens, room - 1)?;
    tokens.expect(Next::Word(WordSymbol::End))?;
    Ok(Statement::Compound(at, statements))
}

#[cycle(statements)]
#[tactic(auto, using(crate::proofs::RoomLemmas::behind_is), unfolding(crate::specs::Statements::if_statement))]
fn if_statement(alloc: Global, tokens: &mut Cursor<'_>, room: usize) -> Result<Statement, Failure>
    ensures { Reads (spec.if_statement room (behind room) tokens.old) result tokens.new }
{
    let at = tokens.open(Next::Word(WordSymbol::If), room)?;
    let condition = Boxed::new(alloc, expression(alloc, tokens, room - 1)?)?;
    tokens.expect(Next::Word(WordSymbol::Then))?;
    let first = Boxed::new(alloc, statement(alloc, tokens, room - 1)?)?;
    let second = else_part(alloc, tokens, room - 1)?;
    Ok(Statement::If(at, condition, first, second))
}

#[cycle(statements)]
#[tactic(auto, using(crate::proofs::RoomLemmas::behind_is), unfolding(crate::specs::Statements::case_statement))]
fn case_statement(alloc: Global, tokens: &mut Cursor<'_>, room: usize) -> Result<Statement, Failure>
    ensures { Reads (spec.case_statement room (behind room) tokens.old) result tokens.new }
{
    let at = tokens.open(Next::Word(WordSymbol::Case), room)?;
    let index = Boxed::new(alloc, expression(alloc, tokens, room - 1)?)?;
    tokens.expect(Next::Word(WordSymbol::Of))?;
    let found = arms(alloc, tokens, room - 1)?;
    tokens.expect(Next::Word(WordSymbol::End))?;
    Ok(Statement::Case(at, index, found))
}

#[cycle(statements)]
#[tactic(auto, using(crate::proofs::RoomLemmas::behind_is), unfolding(crate::specs::Statements::while_statement))]
fn while_statement(
    alloc: Global,
    tokens: &mut Cursor<'_>,
    room: usize,
) -> Result<Statement, Failure>
    ensures { Reads (spec.while_statement room (behind room) tokens.old) result tokens.new }
{
    let at = tokens.open(Next::Word(WordSymbol::While), room)?;
    let condition = Boxed::new(alloc, expression(alloc, tokens, room - 1)?)?;
    tokens.expect(Next::Word(WordSymbol::Do))?;
    let body = Boxed::new(alloc, statement(alloc, tokens, room - 1)?)?;
    Ok(Statement::While(at, condition, body))
}

#[cycle(statements)]
#[tactic(auto, using(crate::proofs::RoomLemmas::behind_is), unfolding(crate::specs::Statements::repeat_statement))]
fn repeat_statement(
    alloc: Global,
    tokens: &mut Cursor<'_>,
    room: usize,
) -> Result<Statement, Failure>
    ensures { Reads (spec.repeat_statement room (behind room) tokens.old) result tokens.new }
{
    let at = tokens.open(Next::Word(WordSymbol::Repeat), room)?;
    let statements = sequence(alloc, tokens, room - 1)?;
    tokens.expect(Next::Word(WordSymbol::Until))?;
    let condition = expression(alloc, tokens, room - 1)?;
    Ok(Statement::Repeat(at, statements, condition))
}

#[cycle(statements)]
#[tactic(auto, using(crate::proofs::RoomLemmas::behind_is), unfolding(crate::specs::Statements::for_statement))]
fn for_statement(alloc: Global, tokens: &mut Cursor<'_>, room: usize) -> Result<Statement, Failure>
    ensures { Reads (spec.for_statement room (behind room) tokens.old) result tokens.new }
{
    let at = tokens.open(Next::Word(WordSymbol::For), room)?;
    let head = for_head(alloc, tokens, room - 1)?;
    tokens.expect(Next::Word(WordSymbol::Do))?;
    let body = Boxed::new(alloc, statement(alloc, tokens, room - 1)?)?;
    Ok(Statement::For(at, head, body))
}

#[cycle(statements)]
#[tactic(auto, using(crate::proofs::RoomLemmas::behind_is), unfolding(crate::specs::Statements::with_statement))]
fn with_statement(alloc: Global, tokens: &mut Cursor<'_>, room: usize) -> Result<Statement, Failure>
    ensures { Reads (spec.with_statement room (behind room) tokens.old) result tokens.new }
{
    let at = tokens.open(Next::Word(WordSymbol::With), room)?;
    let found = records(alloc, tokens, room - 1)?;
    tokens.expect(Next::Word(WordSymbol::Do))?;
    let body = Boxed::new(alloc, statement(alloc, tokens, room - 1)?)?;
    Ok(Statement::With(at, found, body))
}

// ---- statements

// A statement without a label; any token that begins none follows an empty one.
#[cycle(statements)]
#[tactic(auto, unfolding(crate::specs::Statements::unlabelled))]
fn unlabelled(alloc: Global, tokens: &mut Cursor<'_>, room: usize) -> Result<Statement, Failure>
    ensures { Reads (spec.unlabelled room (behind room) tokens.old) result tokens.new }
{
    match tokens.next() {
        Next::Identifier => named(alloc, tokens, room),
        Next::Word(WordSymbol::Goto) => goto_statement(tokens),
        Next::Word(WordSymbol::Begin) => compound_statement(alloc, tokens, room),
        Next::Word(WordSymbol::If) => if_statement(alloc, tokens, room),
        Next::Word(WordSymbol::Case) => case_statement(alloc, tokens, room),
        Next::Word(WordSymbol::While) => while_statement(alloc, tokens, room),
        Next::Word(WordSymbol::Repeat) => repeat_statement(alloc, tokens, room),
        Next::Word(WordSymbol::For) => for_statement(alloc, tokens, room),
        Next::Word(WordSymbol::With) => with_statement(alloc, tokens, room),
        _ => Ok(Statement::Empty(tokens.at())),
    }
}

#[cycle(statements)]
#[tactic(auto, unfolding(crate::specs::Statements::labelled))]
fn labelled(alloc: Global, tokens: &mut Cursor<'_>, room: usize) -> Result<Statement, Failure>
    ensures { Reads (spec.labelled room (behind room) tokens.old) result tokens.new }
{
    let label = tokens.number()?;
    tokens.expect(Next::Symbol(Symbol::Colon))?;
    let body = Boxed::new(alloc, unlabelled(alloc, tokens, room)?)?;
    Ok(Statement::Labelled(label, body))
}

/// A statement (ISO 7185, 6.8), where so many more openers may stand open.
#[cycle(statements)]
#[tactic(auto, unfolding(crate::specs::Statements::statement_with))]
pub fn statement(alloc: Global, tokens: &mut Cursor<'_>, room: usize) -> Result<Statement, Failure>
    ensures { Reads (spec.statement room tokens.old) result tokens.new }
{
    if tokens.sees(Next::Number) {
        return labelled(alloc, tokens, room);
    }
    unlabelled(alloc, tokens, room)
}
