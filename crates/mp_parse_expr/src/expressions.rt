#![tactic(auto, using(crate::proofs::RoomLemmas::behind_is, mp_cursor::proofs::LoopLemmas::loop_more, mp_cursor::proofs::LoopLemmas::loop_done), unfolding(mp_cursor::specs::Parsers::expect, mp_cursor::specs::Parsers::repeated, crate::specs::Expressions::further_index, crate::specs::Expressions::further_selection, crate::specs::Expressions::further_actual, crate::specs::Expressions::further_member, crate::specs::Expressions::further_factor, crate::specs::Expressions::further_term))]

ghost use Rattle.std.specs.Prelude.{◌≡◌, ◌<◌, [], ◌∷◌};
ghost use Rattle.mp_ast.specs.ExpressionGrammar as grammar;
ghost use Rattle.mp_cursor.specs.Parsers.{Reads};
ghost use Rattle.mp_parse_expr.specs.Operators as operators;
ghost use Rattle.mp_parse_expr.specs.Expressions as spec;
ghost use Rattle.mp_parse_expr.specs.Expressions.{behind};

use crate::operators::{
    adding_operator, is_adding, is_multiplying, is_relational, multiplying_operator,
    relational_operator,
};
use mp_ast::{
    Access, Actual, Expr, Identifier, Member, Operation, Selector, Sign, Symbol, Width, WordSymbol,
};
use mp_cursor::{Cursor, Failure, Next, added, optional_sign, single};
use sqlite_items::{Boxed, Items};
use std::alloc::Global;

// In these functions `room` is how many more openers may stand open. Each loop takes a token a turn.

#[cycle(expressions)]
fn further_indices(
    alloc: Global,
    tokens: &mut Cursor<'_>,
    room: usize,
    first: Items<Selector<Expr>>,
) -> Result<Items<Selector<Expr>>, Failure>
    requires { 0 < room }
    ensures { Reads (spec.further_indices room (behind room) first tokens.old) result tokens.new }
{
    let mut found = first;
    'indices: for _turn in 0..tokens.left() {
        if !tokens.sees(Next::Symbol(Symbol::Comma)) {
            return Ok(found);
        }
        let at = tokens.expect(Next::Symbol(Symbol::Comma))?;
        let index = expression(alloc, tokens, room - 1)?;
        found.push(Selector::Index(at, index))?;
    }
    Ok(found)
}

#[cycle(expressions)]
#[tactic(auto, using(crate::proofs::RoomLemmas::behind_is), unfolding(crate::specs::Expressions::index_list))]
fn index_list(
    alloc: Global,
    tokens: &mut Cursor<'_>,
    room: usize,
) -> Result<Items<Selector<Expr>>, Failure>
    ensures { Reads (spec.index_list room (behind room) tokens.old) result tokens.new }
{
    let at = tokens.open(Next::Symbol(Symbol::LeftBracket), room)?;
    let first = expression(alloc, tokens, room - 1)?;
    let found = single(alloc, Selector::Index(at, first))?;
    let found = further_indices(alloc, tokens, room, found)?;
    tokens.expect(Next::Symbol(Symbol::RightBracket))?;
    Ok(found)
}

#[tactic(auto, unfolding(crate::specs::Expressions::field_selection))]
fn field_selection(alloc: Global, tokens: &mut Cursor<'_>) -> Result<Items<Selector<Expr>>, Failure>
    ensures { Reads (spec.field_selection tokens.old) result tokens.new }
{
    let at = tokens.expect(Next::Symbol(Symbol::Dot))?;
    let name = tokens.identifier()?;
    Ok(single(alloc, Selector::Field(at, name))?)
}

#[tactic(auto, unfolding(crate::specs::Expressions::pointer_selection))]
fn pointer_selection(
    alloc: Global,
    tokens: &mut Cursor<'_>,
) -> Result<Items<Selector<Expr>>, Failure>
    ensures { Reads (spec.pointer_selection tokens.old) result tokens.new }
{
    let at = tokens.expect(Next::Symbol(Symbol::Caret))?;
    Ok(single(alloc, Selector::Follow(at))?)
}

fn is_selecting(next: Next) -> bool
    ensures { result ≡ spec.selecting next }
{
    matches!(
        next,
        Next::Symbol(Symbol::LeftBracket | Symbol::Dot | Symbol::Caret)
    )
}

#[cycle(expressions)]
#[tactic(auto)]
fn selection(
    alloc: Global,
    tokens: &mut Cursor<'_>,
    room: usize,
) -> Result<Items<Selector<Expr>>, Failure>
    ensures { Reads (spec.selection room (behind room) tokens.old) result tokens.new }
{
    if tokens.sees(Next::Symbol(Symbol::LeftBracket)) {
        return index_list(alloc, tokens, room);
    }
    if tokens.sees(Next::Symbol(Symbol::Dot)) {
        return field_selection(alloc, tokens);
    }
    pointer_selection(alloc, tokens)
}

#[cycle(expressions)]
fn selections(
    alloc: Global,
    tokens: &mut Cursor<'_>,
    room: usize,
) -> Result<Items<Selector<Expr>>, Failure>
    ensures { Reads (spec.selections room (behind room) tokens.old) result tokens.new }
{
    let mut found = Items::new(alloc);
    'selectors: for _turn in 0..tokens.left() {
        if !is_selecting(tokens.next()) {
            return Ok(found);
        }
        let more = selection(alloc, tokens, room)?;
        if found.is_empty() {
            found = more;
        } else {
            found.append(more)?;
        }
    }
    Ok(found)
}

/// A variable (ISO 7185, 6.5) whose name was read, where so many more openers may stand open.
#[cycle(expressions)]
#[tactic(auto, unfolding(crate::specs::Expressions::access_behind_with))]
pub fn access_behind(
    alloc: Global,
    tokens: &mut Cursor<'_>,
    room: usize,
    name: Identifier,
) -> Result<Access<Expr>, Failure>
    ensures { Reads (spec.access_behind room name tokens.old) result tokens.new }
{
    let selectors = selections(alloc, tokens, room)?;
    Ok(Access { name, selectors })
}

// ---- actual parameters

#[cycle(expressions)]
#[tactic(auto, using(crate::proofs::RoomLemmas::behind_is), unfolding(crate::specs::Expressions::actual, crate::specs::Expressions::width))]
fn actual(alloc: Global, tokens: &mut Cursor<'_>, room: usize) -> Result<Actual<Expr>, Failure>
    requires { 0 < room }
    ensures { Reads (spec.actual room (behind room) tokens.old) result tokens.new }
{
    let value = expression(alloc, tokens, room - 1)?;
    if !tokens.sees(Next::Symbol(Symbol::Colon)) {
        return Ok(Actual { value, width: None });
    }
    let value = Boxed::new(alloc, value)?;
    let at = tokens.expect(Next::Symbol(Symbol::Colon))?;
    let width = expression(alloc, tokens, room - 1)?;
    let width = Boxed::new(alloc, Width { at, value: width })?;
    Ok(Actual {
        value: value.into_inner(),
        width: Some(width),
    })
}

#[cycle(expressions)]
fn further_actuals(
    alloc: Global,
    tokens: &mut Cursor<'_>,
    room: usize,
    first: Items<Actual<Expr>>,
) -> Result<Items<Actual<Expr>>, Failure>
    requires { 0 < room }
    ensures { Reads (spec.further_actuals room (behind room) first tokens.old) result tokens.new }
{
    let mut found = first;
    'actuals: for _turn in 0..tokens.left() {
        if !tokens.takes(Next::Symbol(Symbol::Comma)) {
            return Ok(found);
        }
        found.push(actual(alloc, tokens, room)?)?;
    }
    Ok(found)
}

/// Actual parameters in parentheses (ISO 7185, 6.7.3), where so many more openers may stand open.
#[cycle(expressions)]
#[tactic(auto, unfolding(crate::specs::Expressions::actuals_with))]
pub fn actuals(
    alloc: Global,
    tokens: &mut Cursor<'_>,
    room: usize,
) -> Result<Items<Actual<Expr>>, Failure>
    ensures { Reads (spec.actuals room tokens.old) result tokens.new }
{
    tokens.open(Next::Symbol(Symbol::LeftParen), room)?;
    let first = actual(alloc, tokens, room)?;
    let found = single(alloc, first)?;
    let found = further_actuals(alloc, tokens, room, found)?;
    tokens.expect(Next::Symbol(Symbol::RightParen))?;
    Ok(found)
}

// ---- factors

#[cycle(expressions)]
#[tactic(auto, using(crate::proofs::RoomLemmas::behind_is), unfolding(crate::specs::Expressions::member, crate::specs::Expressions::last_member))]
fn member(alloc: Global, tokens: &mut Cursor<'_>, room: usize) -> Result<Member<Expr>, Failure>
    requires { 0 < room }
    ensures { Reads (spec.member room (behind room) tokens.old) result tokens.new }
{
    let first = expression(alloc, tokens, room - 1)?;
    if !tokens.sees(Next::Symbol(Symbol::DotDot)) {
        return Ok(Member { first, last: None });
    }
    let first = Boxed::new(alloc, first)?;
    tokens.expect(Next::Symbol(Symbol::DotDot))?;
    let last = expression(alloc, tokens, room - 1)?;
    Ok(Member {
        first: first.into_inner(),
        last: Some(last),
    })
}

#[cycle(expressions)]
fn further_members(
    alloc: Global,
    tokens: &mut Cursor<'_>,
    room: usize,
    first: Items<Member<Expr>>,
) -> Result<Items<Member<Expr>>, Failure>
    requires { 0 < room }
    ensures { Reads (spec.further_members room (behind room) first tokens.old) result tokens.new }
{
    let mut found = first;
    'members: for _turn in 0..tokens.left() {
        if !tokens.takes(Next::Symbol(Symbol::Comma)) {
            return Ok(found);
        }
        found.push(member(alloc, tokens, room)?)?;
    }
    Ok(found)
}

#[cycle(expressions)]
#[tactic(auto, unfolding(crate::specs::Expressions::some_members))]
fn members(
    alloc: Global,
    tokens: &mut Cursor<'_>,
    room: usize,
) -> Result<Items<Member<Expr>>, Failure>
    requires { 0 < room }
    ensures { Reads (spec.members room (behind room) tokens.old) result tokens.new }
{
    if tokens.sees(Next::Symbol(Symbol::RightBracket)) {
        return Ok(Items::new(alloc));
    }
    let first = member(alloc, tokens, room)?;
    let found = single(alloc, first)?;
    further_members(alloc, tokens, room, found)
}

#[cycle(expressions)]
#[tactic(auto, unfolding(crate::specs::Expressions::set_constructor))]
fn set_constructor(alloc: Global, tokens: &mut Cursor<'_>, room: usize) -> Result<Expr, Failure>
    ensures { Reads (spec.set_constructor room (behind room) tokens.old) result tokens.new }
{
    let at = tokens.open(Next::Symbol(Symbol::LeftBracket), room)?;
    let found = members(alloc, tokens, room)?;
    tokens.expect(Next::Symbol(Symbol::RightBracket))?;
    Ok(Expr::Set(at, found))
}

#[cycle(expressions)]
#[tactic(auto, using(crate::proofs::RoomLemmas::behind_is), unfolding(crate::specs::Expressions::parenthesized))]
fn parenthesized(alloc: Global, tokens: &mut Cursor<'_>, room: usize) -> Result<Expr, Failure>
    ensures { Reads (spec.parenthesized room (behind room) tokens.old) result tokens.new }
{
    let at = tokens.open(Next::Symbol(Symbol::LeftParen), room)?;
    let inside = Boxed::new(alloc, expression(alloc, tokens, room - 1)?)?;
    tokens.expect(Next::Symbol(Symbol::RightParen))?;
    Ok(Expr::Inside(at, inside))
}

#[cycle(expressions)]
#[tactic(auto, using(crate::proofs::RoomLemmas::behind_is), unfolding(crate::specs::Expressions::negation))]
fn negation(alloc: Global, tokens: &mut Cursor<'_>, room: usize) -> Result<Expr, Failure>
    ensures { Reads (spec.negation room (behind room) tokens.old) result tokens.new }
{
    let at = tokens.open(Next::Word(WordSymbol::Not), room)?;
    let operand = factor(alloc, tokens, room - 1)?;
    Ok(Expr::Not(at, Boxed::new(alloc, operand)?))
}

#[cycle(expressions)]
#[tactic(auto, unfolding(crate::specs::Expressions::named))]
fn named(alloc: Global, tokens: &mut Cursor<'_>, room: usize) -> Result<Expr, Failure>
    ensures { Reads (spec.named room (behind room) tokens.old) result tokens.new }
{
    let name = tokens.identifier()?;
    if tokens.sees(Next::Symbol(Symbol::LeftParen)) {
        let found = actuals(alloc, tokens, room)?;
        return Ok(Expr::Call(name, found));
    }
    Ok(Expr::Access(access_behind(alloc, tokens, room, name)?))
}

#[cycle(expressions)]
#[tactic(auto, unfolding(crate::specs::Expressions::factor_with))]
fn factor(alloc: Global, tokens: &mut Cursor<'_>, room: usize) -> Result<Expr, Failure>
    ensures { Reads (spec.factor room tokens.old) result tokens.new }
{
    match tokens.next() {
        Next::Number => Ok(Expr::Number(tokens.number()?)),
        Next::Text => Ok(Expr::Text(tokens.character_string(alloc)?)),
        Next::Word(WordSymbol::Nil) => Ok(Expr::Nil(tokens.expect(Next::Word(WordSymbol::Nil))?)),
        Next::Identifier => named(alloc, tokens, room),
        Next::Symbol(Symbol::LeftParen) => parenthesized(alloc, tokens, room),
        Next::Word(WordSymbol::Not) => negation(alloc, tokens, room),
        _ => set_constructor(alloc, tokens, room),
    }
}

// ---- expressions

#[cycle(expressions)]
fn further_factors(
    alloc: Global,
    tokens: &mut Cursor<'_>,
    room: usize,
) -> Result<Items<Operation<Expr>>, Failure>
    ensures { Reads (spec.further_factors room (behind room) tokens.old) result tokens.new }
{
    let mut found = Items::new(alloc);
    'factors: for _turn in 0..tokens.left() {
        if !is_multiplying(tokens.next()) {
            return Ok(found);
        }
        let (at, operator) = multiplying_operator(tokens)?;
        let operand = factor(alloc, tokens, room)?;
        let more = Operation {
            at,
            operator,
            operand,
        };
        found = added(alloc, found, more)?;
    }
    Ok(found)
}

// A factor, with the factors behind it where there are any.
fn product(first: Boxed<Expr>, more: Items<Operation<Expr>>) -> Expr
    ensures { result ≡ grammar.product first more }
{
    if more.is_empty() {
        return first.into_inner();
    }
    Expr::Product(first, more)
}

#[cycle(expressions)]
#[tactic(auto, using(mp_cursor::proofs::LoopLemmas::no_turn), unfolding(crate::specs::Expressions::term))]
fn term(alloc: Global, tokens: &mut Cursor<'_>, room: usize) -> Result<Expr, Failure>
    ensures { Reads (spec.term room (behind room) tokens.old) result tokens.new }
{
    let first = factor(alloc, tokens, room)?;
    if !is_multiplying(tokens.next()) {
        return Ok(first);
    }
    let first = Boxed::new(alloc, first)?;
    let more = further_factors(alloc, tokens, room)?;
    Ok(product(first, more))
}

#[cycle(expressions)]
fn further_terms(
    alloc: Global,
    tokens: &mut Cursor<'_>,
    room: usize,
) -> Result<Items<Operation<Expr>>, Failure>
    ensures { Reads (spec.further_terms room (behind room) tokens.old) result tokens.new }
{
    let mut found = Items::new(alloc);
    'terms: for _turn in 0..tokens.left() {
        if !is_adding(tokens.next()) {
            return Ok(found);
        }
        let (at, operator) = adding_operator(tokens)?;
        let operand = term(alloc, tokens, room)?;
        let more = Operation {
            at,
            operator,
            operand,
        };
        found = added(alloc, found, more)?;
    }
    Ok(found)
}

// A term alone, or with its sign and the terms behind it.
fn sum(sign: Option<Sign>, first: Boxed<Expr>, more: Items<Operation<Expr>>) -> Expr
    ensures { result ≡ grammar.sum sign first more }
{
    if sign.is_none() && more.is_empty() {
        return first.into_inner();
    }
    Expr::Sum(sign, first, more)
}

#[cycle(expressions)]
#[tactic(auto, using(mp_cursor::proofs::LoopLemmas::no_turn), unfolding(crate::specs::Expressions::simple_expression))]
fn simple_expression(alloc: Global, tokens: &mut Cursor<'_>, room: usize) -> Result<Expr, Failure>
    ensures { Reads (spec.simple_expression room (behind room) tokens.old) result tokens.new }
{
    let sign = optional_sign(tokens)?;
    let first = term(alloc, tokens, room)?;
    if sign.is_none() && !is_adding(tokens.next()) {
        return Ok(first);
    }
    let first = Boxed::new(alloc, first)?;
    let more = further_terms(alloc, tokens, room)?;
    Ok(sum(sign, first, more))
}

/// An expression (ISO 7185, 6.7.1), where so many more openers may stand open.
#[cycle(expressions)]
#[tactic(auto, unfolding(crate::specs::Expressions::expression_with, crate::specs::Expressions::related))]
pub fn expression(alloc: Global, tokens: &mut Cursor<'_>, room: usize) -> Result<Expr, Failure>
    ensures { Reads (spec.expression room tokens.old) result tokens.new }
{
    let left = simple_expression(alloc, tokens, room)?;
    if !is_relational(tokens.next()) {
        return Ok(left);
    }
    let left = Boxed::new(alloc, left)?;
    let (at, operator) = relational_operator(tokens)?;
    let operand = simple_expression(alloc, tokens, room)?;
    let right = Operation {
        at,
        operator,
        operand,
    };
    Ok(Expr::Relation(left, Boxed::new(alloc, right)?))
}

/// A variable (ISO 7185, 6.5), where so many more openers may stand open.
#[tactic(auto, unfolding(crate::specs::Expressions::access))]
pub fn access(alloc: Global, tokens: &mut Cursor<'_>, room: usize) -> Result<Access<Expr>, Failure>
    ensures { Reads (spec.access room tokens.old) result tokens.new }
{
    let name = tokens.identifier()?;
    access_behind(alloc, tokens, room, name)
}
