#![tactic(auto, using(mp_cursor::proofs::LoopLemmas::loop_more, mp_cursor::proofs::LoopLemmas::loop_done), unfolding(mp_cursor::specs::Parsers::repeated, crate::specs::Blocks::declarations))]

ghost use Rattle.std.specs.Prelude.{◌≡◌, ◌+◌, ◌<◌, ◌≤◌, [], ◌∷◌, IfOk, length};
ghost use Rattle.mp_ast.specs.Programs.{standard};
ghost use Rattle.mp_cursor.specs.Parsers.{Reads};
ghost use Rattle.mp_parse.specs.Blocks as spec;

use crate::parts::{constants, labels, statement_part, types, variables};
use mp_ast::{
    Block, BlockTree, Declaration, DeclaredBody, Identifier, ProgramHeading, SharedTree, Symbol,
    WordSymbol,
};
use mp_base::{DEPTH_LIMIT, OPENER_LIMIT, TEXT_LIMIT};
use mp_cursor::{Cursor, Failure, Next, identifiers, single};
use mp_parse_type::heading;
use sqlite_items::{Boxed, Items};
use std::alloc::Global;

// In these functions `depth` is how many more blocks may stand in one another.

/// Blocks that may stand in one another in the program's.
const DEPTH: usize = DEPTH_LIMIT - 1;

// The declarations that a block has so far, and the trees of their blocks.
type Found = (Items<Declaration>, Items<SharedTree>);

// A declaration, with the tree of its block, where it has one.
type Declared = (Declaration, Items<SharedTree>);

// What follows a heading, with the tree of the block where it is one.
type Body = (DeclaredBody, Items<SharedTree>);

#[tactic(auto, unfolding(crate::specs::Blocks::forward_directive))]
fn forward_directive(alloc: Global, tokens: &mut Cursor<'_>) -> Result<Body, Failure>
    ensures { Reads (spec.forward_directive tokens.old) result tokens.new }
{
    let at = tokens.directive("forward")?;
    Ok((DeclaredBody::Forward(at), Items::new(alloc)))
}

#[cycle(blocks)]
#[tactic(auto, unfolding(crate::specs::Blocks::block_body))]
fn block_body(alloc: Global, tokens: &mut Cursor<'_>, depth: usize) -> Result<Body, Failure>
    requires { 0 < depth }
    ensures { Reads (spec.block_body (spec.nested_block standard depth) tokens.old) result tokens.new }
{
    let tree = nested_block(alloc, tokens, depth)?;
    let block = single(alloc, tree)?;
    Ok((DeclaredBody::Block, block))
}

#[cycle(blocks)]
fn declared_body(alloc: Global, tokens: &mut Cursor<'_>, depth: usize) -> Result<Body, Failure>
    requires { 0 < depth }
    ensures { Reads (spec.declared_body (spec.nested_block standard depth) tokens.old) result tokens.new }
{
    if tokens.sees(Next::Identifier) {
        return forward_directive(alloc, tokens);
    }
    block_body(alloc, tokens, depth)
}

#[cycle(blocks)]
#[tactic(auto, unfolding(crate::specs::Blocks::declaration))]
fn declaration(alloc: Global, tokens: &mut Cursor<'_>, depth: usize) -> Result<Declared, Failure>
    requires { 0 < depth }
    ensures { Reads (spec.declaration standard (spec.nested_block standard depth) tokens.old) result tokens.new }
{
    tokens.declare()?;
    let heading = Boxed::new(alloc, heading(alloc, tokens, OPENER_LIMIT)?)?;
    let semicolon = tokens.expect(Next::Symbol(Symbol::Semicolon))?;
    let (body, block) = declared_body(alloc, tokens, depth)?;
    tokens.expect(Next::Symbol(Symbol::Semicolon))?;
    let declaration = Declaration {
        heading: heading.into_inner(),
        semicolon,
        body,
    };
    Ok((declaration, block))
}

#[cycle(blocks)]
#[tactic(auto, using(crate::proofs::DepthLemmas::deeper_more, crate::proofs::DepthLemmas::deeper_none), unfolding(crate::specs::Blocks::further_declaration))]
fn further_declaration(
    alloc: Global,
    tokens: &mut Cursor<'_>,
    depth: usize,
    found: Found,
) -> Result<Found, Failure>
    ensures { Reads (spec.further_declaration standard depth (spec.nested_block standard depth) found tokens.old) result tokens.new }
{
    if depth == 0 {
        return Err(tokens.too_deep());
    }
    let (declaration, block) = declaration(alloc, tokens, depth)?;
    let (mut declarations, mut inside) = found;
    declarations.push(declaration)?;
    inside.append(block)?;
    Ok((declarations, inside))
}

fn is_declaring(next: Next) -> bool
    ensures { result ≡ spec.declaring next }
{
    matches!(
        next,
        Next::Word(WordSymbol::Procedure | WordSymbol::Function)
    )
}

#[cycle(blocks)]
fn declarations(alloc: Global, tokens: &mut Cursor<'_>, depth: usize) -> Result<Found, Failure>
    ensures { Reads (spec.declarations standard depth (spec.nested_block standard depth) tokens.old) result tokens.new }
{
    let mut found = (Items::new(alloc), Items::new(alloc));
    'declarations: for _turn in 0..tokens.left() {
        if !is_declaring(tokens.next()) {
            return Ok(found);
        }
        found = further_declaration(alloc, tokens, depth, found)?;
    }
    Ok(found)
}

// A block, with the trees of the blocks in it.
#[cycle(blocks)]
#[tactic(auto, unfolding(crate::specs::Blocks::block_with))]
fn block(
    alloc: Global,
    tokens: &mut Cursor<'_>,
    program: Option<ProgramHeading>,
    depth: usize,
) -> Result<(Block, Items<SharedTree>), Failure>
    ensures reads { Reads (spec.block standard program depth tokens.old) result tokens.new }
    ensures small { IfOk result (λ b. b.0.tokens ≤ TEXT_LIMIT) }
{
    let labels = labels(alloc, tokens)?;
    let constants = constants(alloc, tokens)?;
    let types = types(alloc, tokens)?;
    let variables = variables(alloc, tokens)?;
    let (declarations, inside) = declarations(alloc, tokens, depth)?;
    let statements = statement_part(alloc, tokens)?;
    let tokens = tokens.at();
    Ok((
        Block {
            program,
            labels,
            constants,
            types,
            variables,
            declarations,
            statements,
            tokens,
        },
        inside,
    ))
}

// A block of its own ordinals.
#[cycle(blocks)]
#[tactic(auto, using(crate::proofs::DepthLemmas::nested_is), unfolding(mp_cursor::specs::Parsers::with_own_ordinals))]
fn nested_block(alloc: Global, tokens: &mut Cursor<'_>, depth: usize) -> Result<SharedTree, Failure>
    requires { 0 < depth }
    ensures { Reads (spec.nested_block standard depth tokens.old) result tokens.new }
{
    let at = tokens.restart();
    let (own, inside) = block(alloc, tokens, None, depth - 1)?;
    tokens.resume(at);
    let own = BlockTree::new(alloc, own)?;
    Ok(SharedTree::new(alloc, own, inside)?)
}

// ---- programs

#[tactic(auto, unfolding(crate::specs::Blocks::some_parameters))]
fn some_parameters(alloc: Global, tokens: &mut Cursor<'_>) -> Result<Items<Identifier>, Failure>
    ensures { Reads (spec.some_parameters standard tokens.old) result tokens.new }
{
    tokens.expect(Next::Symbol(Symbol::LeftParen))?;
    let names = identifiers(alloc, tokens)?;
    tokens.expect(Next::Symbol(Symbol::RightParen))?;
    Ok(names)
}

#[tactic(auto, unfolding(crate::specs::Blocks::parameters))]
fn parameters(alloc: Global, tokens: &mut Cursor<'_>) -> Result<Items<Identifier>, Failure>
    ensures { Reads (spec.parameters standard tokens.old) result tokens.new }
{
    if !tokens.sees(Next::Symbol(Symbol::LeftParen)) {
        return Ok(Items::new(alloc));
    }
    some_parameters(alloc, tokens)
}

#[tactic(auto, unfolding(crate::specs::Blocks::program_heading))]
fn program_heading(alloc: Global, tokens: &mut Cursor<'_>) -> Result<ProgramHeading, Failure>
    ensures { Reads (spec.program_heading standard tokens.old) result tokens.new }
{
    tokens.expect(Next::Word(WordSymbol::Program))?;
    let name = tokens.identifier()?;
    let parameters = parameters(alloc, tokens)?;
    tokens.expect(Next::Symbol(Symbol::Semicolon))?;
    Ok(ProgramHeading { name, parameters })
}

/// A program (ISO 7185, 6.10), whose tokens others may follow.
#[tactic(auto, unfolding(crate::specs::Blocks::program))]
pub fn program(alloc: Global, tokens: &mut Cursor<'_>) -> Result<SharedTree, Failure>
    requires { tokens.old.at + length tokens.old.rest ≤ TEXT_LIMIT }
    ensures { Reads (spec.program standard tokens.old) result tokens.new }
{
    let heading = program_heading(alloc, tokens)?;
    let (own, inside) = block(alloc, tokens, Some(heading), DEPTH)?;
    let own = Boxed::new(alloc, own)?;
    tokens.expect(Next::Symbol(Symbol::Dot))?;
    let mut own = own.into_inner();
    own.tokens = tokens.at();
    let own = BlockTree::new(alloc, own)?;
    Ok(SharedTree::new(alloc, own, inside)?)
}
