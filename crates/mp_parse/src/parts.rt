#![tactic(auto, using(mp_cursor::proofs::LoopLemmas::loop_more, mp_cursor::proofs::LoopLemmas::loop_done), unfolding(mp_cursor::specs::Parsers::repeated, crate::specs::Blocks::further_constant, crate::specs::Blocks::further_type, crate::specs::Blocks::further_section))]

ghost use Rattle.std.specs.Prelude.{◌≡◌, [], ◌∷◌};
ghost use Rattle.mp_cursor.specs.Parsers.{Reads, number};
ghost use Rattle.mp_parse.specs.Blocks as spec;

use mp_ast::{
    ConstantDefinition, Denoter, Number, Section, StatementPart, Symbol, TypeDefinition, WordSymbol,
};
use mp_base::OPENER_LIMIT;
use mp_cursor::{Cursor, Failure, Next, Production, constant, separated, single};
use mp_parse_stmt::sequence;
use mp_parse_type::{denoter, section};
use sqlite_items::{Boxed, Items};
use std::alloc::Global;

// ---- labels

#[derive(Drop)]
struct Label;

impl Production for Label {
    type Item = Number;

    ghost parser = { λ _. number };

    fn read(&self, tokens: &mut Cursor<'_>) -> Result<Number, Failure> {
        tokens.number()
    }
}

#[tactic(auto, unfolding(crate::specs::Blocks::label_part))]
fn label_part(alloc: Global, tokens: &mut Cursor<'_>) -> Result<Items<Number>, Failure>
    ensures { Reads (spec.label_part tokens.old) result tokens.new }
{
    tokens.expect(Next::Word(WordSymbol::Label))?;
    let found = separated(alloc, tokens, Symbol::Comma, &Label)?;
    tokens.expect(Next::Symbol(Symbol::Semicolon))?;
    Ok(found)
}

/// The labels of a label part, where there is one (ISO 7185, 6.2.1).
#[tactic(auto, unfolding(crate::specs::Blocks::labels))]
pub fn labels(alloc: Global, tokens: &mut Cursor<'_>) -> Result<Items<Number>, Failure>
    ensures { Reads (spec.labels tokens.old) result tokens.new }
{
    if !tokens.sees(Next::Word(WordSymbol::Label)) {
        return Ok(Items::new(alloc));
    }
    label_part(alloc, tokens)
}

// ---- constants

#[tactic(auto, unfolding(crate::specs::Blocks::constant_definition))]
fn constant_definition(
    alloc: Global,
    tokens: &mut Cursor<'_>,
) -> Result<ConstantDefinition, Failure>
    ensures { Reads (spec.constant_definition tokens.old) result tokens.new }
{
    let name = tokens.identifier()?;
    tokens.expect(Next::Symbol(Symbol::Equal))?;
    let value = constant(alloc, tokens)?;
    let semicolon = tokens.expect(Next::Symbol(Symbol::Semicolon))?;
    Ok(ConstantDefinition {
        name,
        value,
        semicolon,
    })
}

fn further_constants(
    alloc: Global,
    tokens: &mut Cursor<'_>,
    first: Items<ConstantDefinition>,
) -> Result<Items<ConstantDefinition>, Failure>
    ensures { Reads (spec.further_constants first tokens.old) result tokens.new }
{
    let mut found = first;
    'constants: for _turn in 0..tokens.left() {
        if !tokens.sees(Next::Identifier) {
            return Ok(found);
        }
        found.push(constant_definition(alloc, tokens)?)?;
    }
    Ok(found)
}

/// The definitions of a constant definition part, where there is one (ISO 7185, 6.3).
#[tactic(auto, unfolding(crate::specs::Blocks::constants, crate::specs::Blocks::some_constants))]
pub fn constants(
    alloc: Global,
    tokens: &mut Cursor<'_>,
) -> Result<Items<ConstantDefinition>, Failure>
    ensures { Reads (spec.constants tokens.old) result tokens.new }
{
    if !tokens.sees(Next::Word(WordSymbol::Const)) {
        return Ok(Items::new(alloc));
    }
    tokens.expect(Next::Word(WordSymbol::Const))?;
    let first = constant_definition(alloc, tokens)?;
    let found = single(alloc, first)?;
    further_constants(alloc, tokens, found)
}

// ---- types

#[tactic(auto, unfolding(crate::specs::Blocks::type_definition))]
fn type_definition(alloc: Global, tokens: &mut Cursor<'_>) -> Result<TypeDefinition, Failure>
    ensures { Reads (spec.type_definition OPENER_LIMIT tokens.old) result tokens.new }
{
    let name = tokens.identifier()?;
    tokens.expect(Next::Symbol(Symbol::Equal))?;
    let of = Boxed::new(alloc, denoter(alloc, tokens, OPENER_LIMIT)?)?;
    let semicolon = tokens.expect(Next::Symbol(Symbol::Semicolon))?;
    Ok(TypeDefinition {
        name,
        of,
        semicolon,
    })
}

fn further_types(
    alloc: Global,
    tokens: &mut Cursor<'_>,
    first: Items<TypeDefinition>,
) -> Result<Items<TypeDefinition>, Failure>
    ensures { Reads (spec.further_types OPENER_LIMIT first tokens.old) result tokens.new }
{
    let mut found = first;
    'types: for _turn in 0..tokens.left() {
        if !tokens.sees(Next::Identifier) {
            return Ok(found);
        }
        found.push(type_definition(alloc, tokens)?)?;
    }
    Ok(found)
}

/// The definitions of a type definition part, where there is one (ISO 7185, 6.4.1).
#[tactic(auto, unfolding(crate::specs::Blocks::types, crate::specs::Blocks::some_types))]
pub fn types(alloc: Global, tokens: &mut Cursor<'_>) -> Result<Items<TypeDefinition>, Failure>
    ensures { Reads (spec.types OPENER_LIMIT tokens.old) result tokens.new }
{
    if !tokens.sees(Next::Word(WordSymbol::Type)) {
        return Ok(Items::new(alloc));
    }
    tokens.expect(Next::Word(WordSymbol::Type))?;
    let first = type_definition(alloc, tokens)?;
    let found = single(alloc, first)?;
    further_types(alloc, tokens, found)
}

// ---- variables

#[tactic(auto, unfolding(crate::specs::Blocks::variable_section))]
fn variable_section(alloc: Global, tokens: &mut Cursor<'_>) -> Result<Section<Denoter>, Failure>
    ensures { Reads (spec.variable_section OPENER_LIMIT tokens.old) result tokens.new }
{
    let found = section(alloc, tokens, OPENER_LIMIT)?;
    tokens.expect(Next::Symbol(Symbol::Semicolon))?;
    Ok(found)
}

fn further_sections(
    alloc: Global,
    tokens: &mut Cursor<'_>,
    first: Items<Section<Denoter>>,
) -> Result<Items<Section<Denoter>>, Failure>
    ensures { Reads (spec.further_sections OPENER_LIMIT first tokens.old) result tokens.new }
{
    let mut found = first;
    'sections: for _turn in 0..tokens.left() {
        if !tokens.sees(Next::Identifier) {
            return Ok(found);
        }
        found.push(variable_section(alloc, tokens)?)?;
    }
    Ok(found)
}

/// The sections of a variable declaration part, where there is one (ISO 7185, 6.5.1).
#[tactic(auto, unfolding(crate::specs::Blocks::variables, crate::specs::Blocks::some_sections))]
pub fn variables(alloc: Global, tokens: &mut Cursor<'_>) -> Result<Items<Section<Denoter>>, Failure>
    ensures { Reads (spec.variables OPENER_LIMIT tokens.old) result tokens.new }
{
    if !tokens.sees(Next::Word(WordSymbol::Var)) {
        return Ok(Items::new(alloc));
    }
    tokens.expect(Next::Word(WordSymbol::Var))?;
    let first = variable_section(alloc, tokens)?;
    let found = single(alloc, first)?;
    further_sections(alloc, tokens, found)
}

// ---- statements

/// The statement part of a block (ISO 7185, 6.2.1).
#[tactic(auto, using(mp_parse_stmt::proofs::RoomLemmas::behind_is), unfolding(crate::specs::Blocks::statement_part))]
pub fn statement_part(alloc: Global, tokens: &mut Cursor<'_>) -> Result<StatementPart, Failure>
    ensures { Reads (spec.statement_part OPENER_LIMIT tokens.old) result tokens.new }
{
    let begin = tokens.open(Next::Word(WordSymbol::Begin), OPENER_LIMIT)?;
    let found = sequence(alloc, tokens, OPENER_LIMIT - 1)?;
    let end = tokens.expect(Next::Word(WordSymbol::End))?;
    Ok(StatementPart::Compound(begin, found, end))
}
