#![tactic(auto, using(mp_cursor::proofs::LoopLemmas::loop_more, mp_cursor::proofs::LoopLemmas::loop_done), unfolding(mp_cursor::specs::Parsers::expect, mp_cursor::specs::Parsers::repeated, crate::specs::Headings::further_formal))]

ghost use Rattle.std.specs.Prelude.{◌≡◌};
ghost use Rattle.mp_cursor.specs.Parsers.{Reads};
ghost use Rattle.mp_parse_type.specs.Headings as spec;

use mp_ast::{FormalSection, HeadingKind, HeadingTree, Identifier, Symbol, WordSymbol};
use mp_cursor::{Cursor, Failure, Next, identifiers, single};
use sqlite_items::Items;
use std::alloc::Global;

// In these functions `room` is how many more openers may stand open. Each loop takes a token a turn.

#[tactic(auto, unfolding(crate::specs::Headings::result_type))]
fn result_type(tokens: &mut Cursor<'_>) -> Result<Identifier, Failure>
    ensures { Reads (spec.result_type tokens.old) result tokens.new }
{
    tokens.expect(Next::Symbol(Symbol::Colon))?;
    tokens.identifier()
}

#[tactic(auto, unfolding(crate::specs::Headings::value_parameters))]
fn value_parameters(alloc: Global, tokens: &mut Cursor<'_>) -> Result<FormalSection, Failure>
    ensures { Reads (spec.value_parameters tokens.old) result tokens.new }
{
    let names = identifiers(alloc, tokens)?;
    let of = result_type(tokens)?;
    Ok(FormalSection::Values(names, of))
}

#[tactic(auto, unfolding(crate::specs::Headings::variable_parameters))]
fn variable_parameters(alloc: Global, tokens: &mut Cursor<'_>) -> Result<FormalSection, Failure>
    ensures { Reads (spec.variable_parameters tokens.old) result tokens.new }
{
    let at = tokens.expect(Next::Word(WordSymbol::Var))?;
    let names = identifiers(alloc, tokens)?;
    let of = result_type(tokens)?;
    Ok(FormalSection::Variables(at, names, of))
}

// Formal parameters, if there are any.
#[cycle(formals)]
#[tactic(auto)]
fn own_formals(
    alloc: Global,
    tokens: &mut Cursor<'_>,
    room: usize,
) -> Result<Items<FormalSection>, Failure>
    ensures { Reads (spec.own_formals (spec.formals room) tokens.old) result tokens.new }
{
    if !tokens.sees(Next::Symbol(Symbol::LeftParen)) {
        return Ok(Items::new(alloc));
    }
    formals(alloc, tokens, room)
}

#[cycle(formals)]
#[tactic(auto, unfolding(crate::specs::Headings::procedure_parameter))]
fn procedure_parameter(
    alloc: Global,
    tokens: &mut Cursor<'_>,
    room: usize,
) -> Result<FormalSection, Failure>
    ensures { Reads (spec.procedure_parameter (spec.formals room) tokens.old) result tokens.new }
{
    let at = tokens.expect(Next::Word(WordSymbol::Procedure))?;
    let name = tokens.identifier()?;
    let own = own_formals(alloc, tokens, room)?;
    Ok(FormalSection::Procedure(at, name, own))
}

#[cycle(formals)]
#[tactic(auto, unfolding(crate::specs::Headings::function_parameter))]
fn function_parameter(
    alloc: Global,
    tokens: &mut Cursor<'_>,
    room: usize,
) -> Result<FormalSection, Failure>
    ensures { Reads (spec.function_parameter (spec.formals room) tokens.old) result tokens.new }
{
    let at = tokens.expect(Next::Word(WordSymbol::Function))?;
    let name = tokens.identifier()?;
    let own = own_formals(alloc, tokens, room)?;
    let of = result_type(tokens)?;
    Ok(FormalSection::Function(at, name, own, of))
}

#[cycle(formals)]
#[tactic(auto, unfolding(crate::specs::Headings::formal))]
fn formal(alloc: Global, tokens: &mut Cursor<'_>, room: usize) -> Result<FormalSection, Failure>
    ensures { Reads (spec.formal (spec.formals room) tokens.old) result tokens.new }
{
    match tokens.next() {
        Next::Word(WordSymbol::Var) => variable_parameters(alloc, tokens),
        Next::Word(WordSymbol::Procedure) => procedure_parameter(alloc, tokens, room),
        Next::Word(WordSymbol::Function) => function_parameter(alloc, tokens, room),
        _ => value_parameters(alloc, tokens),
    }
}

#[cycle(formals)]
fn further_formals(
    alloc: Global,
    tokens: &mut Cursor<'_>,
    room: usize,
    first: Items<FormalSection>,
) -> Result<Items<FormalSection>, Failure>
    ensures { Reads (spec.further_formals (spec.formals room) first tokens.old) result tokens.new }
{
    let mut found = first;
    'sections: for _turn in 0..tokens.left() {
        if !tokens.takes(Next::Symbol(Symbol::Semicolon)) {
            return Ok(found);
        }
        found.push(formal(alloc, tokens, room)?)?;
    }
    Ok(found)
}

// Sections with `;` between them.
#[cycle(formals)]
#[tactic(auto, unfolding(crate::specs::Headings::formal_sections))]
fn formal_sections(
    alloc: Global,
    tokens: &mut Cursor<'_>,
    room: usize,
) -> Result<Items<FormalSection>, Failure>
    ensures { Reads (spec.formal_sections (spec.formals room) tokens.old) result tokens.new }
{
    let first = formal(alloc, tokens, room)?;
    let found = single(alloc, first)?;
    further_formals(alloc, tokens, room, found)
}

#[cycle(formals)]
#[tactic(auto, using(crate::proofs::RoomLemmas::formals_are, crate::proofs::RoomLemmas::formals_behind_is))]
fn formals(
    alloc: Global,
    tokens: &mut Cursor<'_>,
    room: usize,
) -> Result<Items<FormalSection>, Failure>
    ensures { Reads (spec.formals room tokens.old) result tokens.new }
{
    tokens.open(Next::Symbol(Symbol::LeftParen), room)?;
    let found = formal_sections(alloc, tokens, room - 1)?;
    tokens.expect(Next::Symbol(Symbol::RightParen))?;
    Ok(found)
}

#[tactic(auto, unfolding(crate::specs::Headings::procedure_heading))]
fn procedure_heading(
    alloc: Global,
    tokens: &mut Cursor<'_>,
    room: usize,
) -> Result<HeadingTree, Failure>
    ensures { Reads (spec.procedure_heading room tokens.old) result tokens.new }
{
    let at = tokens.expect(Next::Word(WordSymbol::Procedure))?;
    let name = tokens.identifier()?;
    let formals = own_formals(alloc, tokens, room)?;
    Ok(HeadingTree {
        at,
        name,
        formals,
        kind: HeadingKind::Procedure,
    })
}

#[tactic(auto, unfolding(crate::specs::Headings::optional_result))]
fn optional_result(tokens: &mut Cursor<'_>) -> Result<Option<Identifier>, Failure>
    ensures { Reads (spec.optional_result tokens.old) result tokens.new }
{
    if !tokens.sees(Next::Symbol(Symbol::Colon)) {
        return Ok(None);
    }
    Ok(Some(result_type(tokens)?))
}

#[tactic(auto, unfolding(crate::specs::Headings::function_heading))]
fn function_heading(
    alloc: Global,
    tokens: &mut Cursor<'_>,
    room: usize,
) -> Result<HeadingTree, Failure>
    ensures { Reads (spec.function_heading room tokens.old) result tokens.new }
{
    let at = tokens.expect(Next::Word(WordSymbol::Function))?;
    let name = tokens.identifier()?;
    let formals = own_formals(alloc, tokens, room)?;
    let result = optional_result(tokens)?;
    Ok(HeadingTree {
        at,
        name,
        formals,
        kind: HeadingKind::Function(result),
    })
}

/// The heading of a procedure or a function (ISO 7185, 6.6.1, 6.6.2), where so many more openers may stand open.
#[tactic(auto, unfolding(crate::specs::Headings::heading))]
pub fn heading(alloc: Global, tokens: &mut Cursor<'_>, room: usize) -> Result<HeadingTree, Failure>
    ensures { Reads (spec.heading room tokens.old) result tokens.new }
{
    if tokens.sees(Next::Word(WordSymbol::Procedure)) {
        return procedure_heading(alloc, tokens, room);
    }
    function_heading(alloc, tokens, room)
}
