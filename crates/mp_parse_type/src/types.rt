#![tactic(auto, using(mp_cursor::proofs::LoopLemmas::loop_more, mp_cursor::proofs::LoopLemmas::loop_done, mp_cursor::proofs::LoopLemmas::series_more, mp_cursor::proofs::LoopLemmas::series_done, crate::proofs::LoopLemmas::last_more, crate::proofs::LoopLemmas::last_done), unfolding(mp_cursor::specs::Parsers::expect, mp_cursor::specs::Parsers::repeated, mp_cursor::specs::Parsers::repeated_series, crate::specs::Types::repeated_and_last, crate::specs::Types::further_index, crate::specs::Types::further_variant, crate::specs::Types::further_section))]

ghost use Rattle.std.specs.Prelude.{◌≡◌, ◌≢◌, ◌<◌, IfErr, IfOk};
ghost use Rattle.mp_cursor.specs.Parsers.{Reads};
ghost use Rattle.mp_cursor.specs.declared.failure.Failure.TheVariants as failure;
ghost use Rattle.mp_parse_type.specs.Types as spec;
ghost use Rattle.mp_parse_type.specs.Types.{behind, HasOpened};

use mp_ast::{
    Constant, Denoter, Identifier, Index, Section, Symbol, Variant, VariantPart, WordSymbol,
};
use mp_cursor::{Cursor, Failure, Next, begins_constant, constant, constants, identifiers, single};
use sqlite_items::{Boxed, Items};
use std::alloc::Global;

// In these functions `room` is how many more openers may stand open. Each loop takes a token a turn.

// ---- simple types and pointer types

#[tactic(auto, unfolding(crate::specs::Types::enumeration))]
fn enumeration(alloc: Global, tokens: &mut Cursor<'_>) -> Result<Denoter, Failure>
    ensures { Reads (spec.enumeration tokens.old) result tokens.new }
{
    let at = tokens.expect(Next::Symbol(Symbol::LeftParen))?;
    let names = identifiers(alloc, tokens)?;
    tokens.expect(Next::Symbol(Symbol::RightParen))?;
    Ok(Denoter::Enumeration(at, names))
}

#[tactic(auto, unfolding(crate::specs::Types::subrange_from))]
fn subrange_from(
    alloc: Global,
    tokens: &mut Cursor<'_>,
    first: Constant,
) -> Result<Denoter, Failure>
    ensures { Reads (spec.subrange_from first tokens.old) result tokens.new }
{
    tokens.expect(Next::Symbol(Symbol::DotDot))?;
    let last = constant(alloc, tokens)?;
    Ok(Denoter::Subrange(first, last))
}

#[tactic(auto, unfolding(crate::specs::Types::subrange))]
fn subrange(alloc: Global, tokens: &mut Cursor<'_>) -> Result<Denoter, Failure>
    ensures { Reads (spec.subrange tokens.old) result tokens.new }
{
    let first = constant(alloc, tokens)?;
    subrange_from(alloc, tokens, first)
}

// The name of a type, or a subrange that begins with the name of a constant.
#[tactic(auto, unfolding(crate::specs::Types::named_type))]
fn named_type(alloc: Global, tokens: &mut Cursor<'_>) -> Result<Denoter, Failure>
    ensures { Reads (spec.named_type tokens.old) result tokens.new }
{
    let name = tokens.identifier()?;
    if tokens.sees(Next::Symbol(Symbol::DotDot)) {
        return subrange_from(alloc, tokens, Constant::Name(None, name));
    }
    Ok(Denoter::Named(name))
}

#[tactic(auto, unfolding(crate::specs::Types::simple_type))]
fn simple_type(alloc: Global, tokens: &mut Cursor<'_>) -> Result<Denoter, Failure>
    ensures { Reads (spec.simple_type tokens.old) result tokens.new }
{
    match tokens.next() {
        Next::Identifier => named_type(alloc, tokens),
        Next::Symbol(Symbol::LeftParen) => enumeration(alloc, tokens),
        _ => subrange(alloc, tokens),
    }
}

#[tactic(auto, unfolding(crate::specs::Types::pointer_type))]
fn pointer_type(tokens: &mut Cursor<'_>) -> Result<Denoter, Failure>
    ensures { Reads (spec.pointer_type tokens.old) result tokens.new }
{
    let at = tokens.expect(Next::Symbol(Symbol::Caret))?;
    let domain = tokens.identifier()?;
    Ok(Denoter::Pointer(at, domain))
}

// ---- structured types

// The word of a structure, which opens where no `packed` stands before it.
#[tactic(auto, unfolding(crate::specs::Types::structure_word))]
fn structure_word(
    tokens: &mut Cursor<'_>,
    room: usize,
    packed: Option<u32>,
    word: WordSymbol,
) -> Result<u32, Failure>
    requires { HasOpened packed room }
    ensures reads { Reads (spec.structure_word room (behind room) packed word tokens.old) result tokens.new }
    ensures room { IfOk result (λ at. 0 < room) }
    ensures memory { IfErr result (λ e. e ≢ failure.Memory) }
{
    match packed {
        None => tokens.open(Next::Word(word), room),
        Some(_) => tokens.expect(Next::Word(word)),
    }
}

fn further_indices(
    alloc: Global,
    tokens: &mut Cursor<'_>,
    first: Items<Index<Denoter>>,
) -> Result<Items<Index<Denoter>>, Failure>
    ensures { Reads (spec.further_indices first tokens.old) result tokens.new }
{
    let mut found = first;
    'indices: for _turn in 0..tokens.left() {
        if !tokens.sees(Next::Symbol(Symbol::Comma)) {
            return Ok(found);
        }
        let at = tokens.expect(Next::Symbol(Symbol::Comma))?;
        let of = simple_type(alloc, tokens)?;
        found.push(Index { at, of })?;
    }
    Ok(found)
}

// Index types with commas between them. `at` identifies the type that has the first one.
#[tactic(auto, unfolding(crate::specs::Types::index_types))]
fn index_types(
    alloc: Global,
    tokens: &mut Cursor<'_>,
    at: u32,
) -> Result<Items<Index<Denoter>>, Failure>
    ensures { Reads (spec.index_types at tokens.old) result tokens.new }
{
    let of = simple_type(alloc, tokens)?;
    let found = single(alloc, Index { at, of })?;
    further_indices(alloc, tokens, found)
}

#[cycle(denoters)]
#[tactic(auto, using(crate::proofs::RoomLemmas::behind_is), unfolding(crate::specs::Types::array_type))]
fn array_type(
    alloc: Global,
    tokens: &mut Cursor<'_>,
    room: usize,
    packed: Option<u32>,
) -> Result<Denoter, Failure>
    requires { HasOpened packed room }
    ensures { Reads (spec.array_type room (behind room) packed tokens.old) result tokens.new }
{
    let word = structure_word(tokens, room, packed, WordSymbol::Array)?;
    let at = packed.unwrap_or(word);
    tokens.expect(Next::Symbol(Symbol::LeftBracket))?;
    let indices = index_types(alloc, tokens, at)?;
    tokens.expect(Next::Symbol(Symbol::RightBracket))?;
    tokens.expect(Next::Word(WordSymbol::Of))?;
    let of = Boxed::new(alloc, denoter(alloc, tokens, room - 1)?)?;
    Ok(Denoter::Array(at, packed.is_some(), indices, of))
}

#[cycle(denoters)]
#[tactic(auto, using(crate::proofs::RoomLemmas::behind_is), unfolding(crate::specs::Types::record_type))]
fn record_type(
    alloc: Global,
    tokens: &mut Cursor<'_>,
    room: usize,
    packed: Option<u32>,
) -> Result<Denoter, Failure>
    requires { HasOpened packed room }
    ensures { Reads (spec.record_type room (behind room) packed tokens.old) result tokens.new }
{
    let at = structure_word(tokens, room, packed, WordSymbol::Record)?;
    let fields = Boxed::new(alloc, field_list(alloc, tokens, room - 1)?)?;
    tokens.expect(Next::Word(WordSymbol::End))?;
    Ok(Denoter::Record(packed.unwrap_or(at), packed.is_some(), fields))
}

#[tactic(auto, unfolding(crate::specs::Types::set_type))]
fn set_type(
    alloc: Global,
    tokens: &mut Cursor<'_>,
    room: usize,
    packed: Option<u32>,
) -> Result<Denoter, Failure>
    requires { HasOpened packed room }
    ensures { Reads (spec.set_type room (behind room) packed tokens.old) result tokens.new }
{
    let at = structure_word(tokens, room, packed, WordSymbol::Set)?;
    tokens.expect(Next::Word(WordSymbol::Of))?;
    let base = Boxed::new(alloc, simple_type(alloc, tokens)?)?;
    Ok(Denoter::Set(packed.unwrap_or(at), packed.is_some(), base))
}

#[cycle(denoters)]
#[tactic(auto, using(crate::proofs::RoomLemmas::behind_is), unfolding(crate::specs::Types::file_type))]
fn file_type(
    alloc: Global,
    tokens: &mut Cursor<'_>,
    room: usize,
    packed: Option<u32>,
) -> Result<Denoter, Failure>
    requires { HasOpened packed room }
    ensures { Reads (spec.file_type room (behind room) packed tokens.old) result tokens.new }
{
    let at = structure_word(tokens, room, packed, WordSymbol::File)?;
    tokens.expect(Next::Word(WordSymbol::Of))?;
    let of = Boxed::new(alloc, denoter(alloc, tokens, room - 1)?)?;
    Ok(Denoter::File(packed.unwrap_or(at), at, of))
}

// A structure, whose `packed` was read where it has one.
#[cycle(denoters)]
#[tactic(auto, unfolding(crate::specs::Types::structure))]
fn structure(
    alloc: Global,
    tokens: &mut Cursor<'_>,
    room: usize,
    packed: Option<u32>,
) -> Result<Denoter, Failure>
    requires { HasOpened packed room }
    ensures { Reads (spec.structure room (behind room) packed tokens.old) result tokens.new }
{
    match tokens.next() {
        Next::Word(WordSymbol::Array) => array_type(alloc, tokens, room, packed),
        Next::Word(WordSymbol::Record) => record_type(alloc, tokens, room, packed),
        Next::Word(WordSymbol::Set) => set_type(alloc, tokens, room, packed),
        _ => file_type(alloc, tokens, room, packed),
    }
}

#[cycle(denoters)]
#[tactic(auto, unfolding(crate::specs::Types::packed_structure))]
fn packed_structure(alloc: Global, tokens: &mut Cursor<'_>, room: usize) -> Result<Denoter, Failure>
    ensures { Reads (spec.packed_structure room (behind room) tokens.old) result tokens.new }
{
    let at = tokens.open(Next::Word(WordSymbol::Packed), room)?;
    structure(alloc, tokens, room, Some(at))
}

fn is_structure_word(next: Next) -> bool
    ensures { result ≡ spec.structure_words next }
{
    matches!(
        next,
        Next::Word(WordSymbol::Array | WordSymbol::Record | WordSymbol::Set | WordSymbol::File)
    )
}

/// A type denoter (ISO 7185, 6.4.1), where so many more openers may stand open.
#[cycle(denoters)]
#[tactic(auto, unfolding(crate::specs::Types::denoter_with))]
pub fn denoter(alloc: Global, tokens: &mut Cursor<'_>, room: usize) -> Result<Denoter, Failure>
    ensures { Reads (spec.denoter room tokens.old) result tokens.new }
{
    if tokens.sees(Next::Symbol(Symbol::Caret)) {
        return pointer_type(tokens);
    }
    if is_structure_word(tokens.next()) {
        return structure(alloc, tokens, room, None);
    }
    if tokens.sees(Next::Word(WordSymbol::Packed)) {
        return packed_structure(alloc, tokens, room);
    }
    simple_type(alloc, tokens)
}

// ---- field lists

/// Names of one type (ISO 7185, 6.4.3.3, 6.5.1): a section of a record's fields, or of variables. So many more openers
/// may stand open.
#[cycle(denoters)]
#[tactic(auto, unfolding(crate::specs::Types::section))]
pub fn section(
    alloc: Global,
    tokens: &mut Cursor<'_>,
    room: usize,
) -> Result<Section<Denoter>, Failure>
    ensures { Reads (spec.section (spec.denoter room) tokens.old) result tokens.new }
{
    let names = identifiers(alloc, tokens)?;
    tokens.expect(Next::Symbol(Symbol::Colon))?;
    let of = Boxed::new(alloc, denoter(alloc, tokens, room)?)?;
    Ok(Section { names, of })
}

#[cycle(denoters)]
#[tactic(auto, unfolding(crate::specs::Types::variant))]
fn variant(alloc: Global, tokens: &mut Cursor<'_>, room: usize) -> Result<Variant<Denoter>, Failure>
    ensures { Reads (spec.variant (spec.field_list room) tokens.old) result tokens.new }
{
    let constants = constants(alloc, tokens)?;
    tokens.expect(Next::Symbol(Symbol::Colon))?;
    tokens.expect(Next::Symbol(Symbol::LeftParen))?;
    let fields = Boxed::new(alloc, field_list(alloc, tokens, room)?)?;
    tokens.expect(Next::Symbol(Symbol::RightParen))?;
    Ok(Variant { constants, fields })
}

#[cycle(denoters)]
fn further_variants(
    alloc: Global,
    tokens: &mut Cursor<'_>,
    room: usize,
    first: Items<Variant<Denoter>>,
) -> Result<Items<Variant<Denoter>>, Failure>
    ensures { Reads (spec.further_variants (spec.field_list room) first tokens.old) result tokens.new }
{
    let mut found = first;
    'variants: for _turn in 0..tokens.left() {
        if !tokens.takes(Next::Symbol(Symbol::Semicolon)) {
            return Ok(found);
        }
        if !begins_constant(tokens.next()) {
            return Ok(found);
        }
        found.push(variant(alloc, tokens, room)?)?;
    }
    Ok(found)
}

// Variants with `;` between them, and perhaps one more `;`.
#[cycle(denoters)]
#[tactic(auto, unfolding(crate::specs::Types::variants))]
fn variants(
    alloc: Global,
    tokens: &mut Cursor<'_>,
    room: usize,
) -> Result<Items<Variant<Denoter>>, Failure>
    ensures { Reads (spec.variants (spec.field_list room) tokens.old) result tokens.new }
{
    let first = variant(alloc, tokens, room)?;
    let found = single(alloc, first)?;
    further_variants(alloc, tokens, room, found)
}

// The name of a tag field, where there is one, and the type of the tag.
#[tactic(auto, unfolding(mp_cursor::specs::Parsers::expect, crate::specs::Types::tag))]
fn tag(tokens: &mut Cursor<'_>) -> Result<(Option<Identifier>, Identifier), Failure>
    ensures { Reads (spec.tag tokens.old) result tokens.new }
{
    let name = tokens.identifier()?;
    if !tokens.takes(Next::Symbol(Symbol::Colon)) {
        return Ok((None, name));
    }
    let of = tokens.identifier()?;
    Ok((Some(name), of))
}

// A variant part, and perhaps a `;` behind it.
#[cycle(denoters)]
#[tactic(auto, using(crate::proofs::RoomLemmas::behind_is), unfolding(crate::specs::Types::variant_part))]
fn variant_part(
    alloc: Global,
    tokens: &mut Cursor<'_>,
    room: usize,
) -> Result<VariantPart<Denoter>, Failure>
    ensures { Reads (spec.variant_part room (behind room) tokens.old) result tokens.new }
{
    let at = tokens.open(Next::Word(WordSymbol::Case), room)?;
    let (tag, of) = tag(tokens)?;
    tokens.expect(Next::Word(WordSymbol::Of))?;
    let variants = variants(alloc, tokens, room - 1)?;
    Ok(VariantPart {
        at,
        tag,
        of,
        variants,
    })
}

// What may stand behind the last section: a variant part.
#[cycle(denoters)]
#[tactic(auto)]
fn last_fields(
    alloc: Global,
    tokens: &mut Cursor<'_>,
    room: usize,
    fixed: Items<Section<Denoter>>,
) -> Result<Denoter, Failure>
    ensures { Reads (spec.last_fields room (behind room) fixed tokens.old) result tokens.new }
{
    if !tokens.sees(Next::Word(WordSymbol::Case)) {
        return Ok(Denoter::Fields(fixed, None));
    }
    let part = variant_part(alloc, tokens, room)?;
    Ok(Denoter::Fields(fixed, Some(part)))
}

// The sections behind the first ones, and the variant part.
#[cycle(denoters)]
fn further_fields(
    alloc: Global,
    tokens: &mut Cursor<'_>,
    room: usize,
    first: Items<Section<Denoter>>,
) -> Result<Denoter, Failure>
    ensures { Reads (spec.further_fields room (behind room) first tokens.old) result tokens.new }
{
    let mut found = first;
    'sections: for _turn in 0..tokens.left() {
        if !tokens.takes(Next::Symbol(Symbol::Semicolon)) {
            return Ok(Denoter::Fields(found, None));
        }
        if !tokens.sees(Next::Identifier) {
            return last_fields(alloc, tokens, room, found);
        }
        found.push(section(alloc, tokens, room)?)?;
    }
    Ok(Denoter::Fields(found, None))
}

#[cycle(denoters)]
#[tactic(auto, unfolding(crate::specs::Types::fixed_fields))]
fn fixed_fields(alloc: Global, tokens: &mut Cursor<'_>, room: usize) -> Result<Denoter, Failure>
    ensures { Reads (spec.fixed_fields room (behind room) tokens.old) result tokens.new }
{
    let first = section(alloc, tokens, room)?;
    let found = single(alloc, first)?;
    further_fields(alloc, tokens, room, found)
}

#[cycle(denoters)]
#[tactic(auto, unfolding(crate::specs::Types::field_list_with))]
fn field_list(alloc: Global, tokens: &mut Cursor<'_>, room: usize) -> Result<Denoter, Failure>
    ensures { Reads (spec.field_list room tokens.old) result tokens.new }
{
    if tokens.sees(Next::Identifier) {
        return fixed_fields(alloc, tokens, room);
    }
    last_fields(alloc, tokens, room, Items::new(alloc))
}
