#![tactic(auto, using(crate::proofs::LoopLemmas::loop_more, crate::proofs::LoopLemmas::loop_done), unfolding(crate::specs::Parsers::repeated, crate::specs::Parsers::further, crate::specs::Parsers::expect))]

ghost use Rattle.std.specs.Prelude.{◌≡◌, ◌∷◌};
ghost use Rattle.mp_cursor.specs.Parsers as spec;
ghost use Rattle.mp_cursor.specs.Parsers.{Parser, Reads};
ghost use Rattle.mp_cursor.specs.declared.next.Next.TheVariants as token;

use crate::cursor::Cursor;
use crate::failure::Failure;
use crate::lists::single;
use crate::next::Next;
use mp_ast::Symbol;
use sqlite_items::Items;
use std::alloc::Global;

/// What can be read one after another, with separators between.
pub trait Production {
    /// What is read.
    type Item: Drop;

    /// The parser that the definition of the production is.
    ghost parser: { Self → Parser Self.Item };

    /// Reads one.
    fn read(&self, tokens: &mut Cursor<'_>) -> Result<Self::Item, Failure>
        ensures { Reads (parser self.now tokens.old) result tokens.new };
}

// More behind those that were found, each behind a separator.
fn further<P: Production>(
    production: &P,
    separator: Symbol,
    tokens: &mut Cursor<'_>,
    first: Items<P::Item>,
) -> Result<Items<P::Item>, Failure>
    ensures { Reads (spec.further (token.Symbol separator) (P.parser production.now) first tokens.old) result tokens.new }
{
    let mut found = first;
    'items: for _turn in 0..tokens.left() {
        if !tokens.takes(Next::Symbol(separator)) {
            return Ok(found);
        }
        found.push(production.read(tokens)?)?;
    }
    Ok(found)
}

/// At least one, with such symbols between them.
#[tactic(auto)]
pub fn separated<P: Production>(
    alloc: Global,
    tokens: &mut Cursor<'_>,
    separator: Symbol,
    production: &P,
) -> Result<Items<P::Item>, Failure>
    ensures { Reads (spec.separated (token.Symbol separator) (P.parser production.now) tokens.old) result tokens.new }
{
    let first = production.read(tokens)?;
    let found = single(alloc, first)?;
    further(production, separator, tokens, found)
}
