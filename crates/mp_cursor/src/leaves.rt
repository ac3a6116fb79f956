ghost use Rattle.std.specs.Prelude.{◌≡◌, ◌≢◌, ◌∷◌, IfErr};
ghost use Rattle.mp_cursor.specs.Nexts as nexts;
ghost use Rattle.mp_cursor.specs.declared.failure.Failure.TheVariants as failure;
ghost use Rattle.mp_cursor.specs.LeafTokens.{constant_begins};
ghost use Rattle.mp_cursor.specs.Leaves as spec;
ghost use Rattle.mp_cursor.specs.Parsers.{Reads, identifier as name};
ghost use Rattle.mp_cursor.specs.declared.next.Next.TheVariants as token;
ghost use Rattle.mp_ast.specs.declared.symbols.Symbol.TheVariants as symbol;

use crate::cursor::Cursor;
use crate::failure::Failure;
use crate::next::Next;
use crate::productions::{Production, separated};
use mp_ast::{Constant, Identifier, Sign, SignKind, Symbol};
use sqlite_items::Items;
use std::alloc::Global;

#[tactic(auto, unfolding(crate::specs::Leaves::sign))]
fn sign(tokens: &mut Cursor<'_>) -> Result<Sign, Failure>
    ensures reads { Reads (spec.sign tokens.old) result tokens.new }
    ensures memory { IfErr result (λ e. e ≢ failure.Memory) }
{
    if tokens.sees(Next::Symbol(Symbol::Plus)) {
        let at = tokens.expect(Next::Symbol(Symbol::Plus))?;
        return Ok(Sign {
            at,
            kind: SignKind::Plus,
        });
    }
    let at = tokens.expect(Next::Symbol(Symbol::Minus))?;
    Ok(Sign {
        at,
        kind: SignKind::Minus,
    })
}

fn is_sign(next: Next) -> bool
    ensures { result ≡ spec.signs next }
{
    matches!(next, Next::Symbol(Symbol::Plus | Symbol::Minus))
}

/// A sign, where one stands next (ISO 7185, 6.1.5).
#[tactic(auto, unfolding(crate::specs::Leaves::optional_sign))]
pub fn optional_sign(tokens: &mut Cursor<'_>) -> Result<Option<Sign>, Failure>
    ensures reads { Reads (spec.optional_sign tokens.old) result tokens.new }
    ensures memory { IfErr result (λ e. e ≢ failure.Memory) }
{
    if !is_sign(tokens.next()) {
        return Ok(None);
    }
    Ok(Some(sign(tokens)?))
}

#[tactic(auto, unfolding(crate::specs::Leaves::signed_constant))]
fn signed_constant(tokens: &mut Cursor<'_>) -> Result<Constant, Failure>
    ensures { Reads (spec.signed_constant tokens.old) result tokens.new }
{
    let sign = optional_sign(tokens)?;
    if tokens.sees(Next::Number) {
        Ok(Constant::Number(sign, tokens.number()?))
    } else {
        Ok(Constant::Name(sign, tokens.identifier()?))
    }
}

/// Whether a constant begins with such a token (ISO 7185, 6.3).
pub fn begins_constant(next: Next) -> bool
    ensures { result ≡ constant_begins next }
{
    matches!(
        next,
        Next::Identifier | Next::Number | Next::Text | Next::Symbol(Symbol::Plus | Symbol::Minus)
    )
}

/// A constant (ISO 7185, 6.3).
#[tactic(auto, unfolding(crate::specs::Leaves::constant))]
pub fn constant(alloc: Global, tokens: &mut Cursor<'_>) -> Result<Constant, Failure>
    ensures { Reads (spec.constant tokens.old) result tokens.new }
{
    if tokens.sees(Next::Text) {
        Ok(Constant::Text(tokens.character_string(alloc)?))
    } else {
        signed_constant(tokens)
    }
}

#[derive(Drop)]
struct Name;

impl Production for Name {
    type Item = Identifier;

    ghost parser = { λ _. name };

    fn read(&self, tokens: &mut Cursor<'_>) -> Result<Identifier, Failure> {
        tokens.identifier()
    }
}

/// Names with commas between them.
pub fn identifiers(alloc: Global, tokens: &mut Cursor<'_>) -> Result<Items<Identifier>, Failure>
    ensures { Reads (spec.identifiers tokens.old) result tokens.new }
{
    separated(alloc, tokens, Symbol::Comma, &Name)
}

#[derive(Drop)]
struct OneConstant {
    alloc: Global,
}

impl Production for OneConstant {
    type Item = Constant;

    ghost parser = { λ _. spec.constant };

    fn read(&self, tokens: &mut Cursor<'_>) -> Result<Constant, Failure> {
        constant(self.alloc, tokens)
    }
}

/// Constants with commas between them.
pub fn constants(alloc: Global, tokens: &mut Cursor<'_>) -> Result<Items<Constant>, Failure>
    ensures { Reads (spec.constants tokens.old) result tokens.new }
{
    separated(alloc, tokens, Symbol::Comma, &OneConstant { alloc })
}
