ghost use Rattle.std.specs.Prelude.{◌≡◌, ◌≢◌, IfErr, IfOk, Ok, Err};
ghost use Rattle.mp_cursor.specs.declared.failure.Failure.TheVariants as failure;
ghost use Rattle.mp_parse.specs.Blocks as spec;
ghost use Rattle.mp_parse.specs.StoppedParts.{open_begin};

use crate::parts::statement_part;
use mp_ast::{StatementPart, WordSymbol};
use mp_base::OPENER_LIMIT;
use mp_cursor::{Cursor, Failure, Next};
use std::alloc::Global;

/// Why there is no statement part, and where the one begins that does not come to its end.
#[derive(Clone, Copy)]
pub struct StoppedPart {
    pub failure: Failure,
    /// How many tokens there are from its `begin` on; none where no `begin` stands, and so no part that could be mended.
    pub begin: Option<usize>,
}

// The `begin` that stands next, by the number of tokens from it on.
fn begin_left(tokens: &Cursor<'_>) -> Option<usize>
    ensures { result ≡ open_begin tokens.now }
{
    if tokens.sees(Next::Word(WordSymbol::Begin)) {
        Some(tokens.left())
    } else {
        None
    }
}

/// The statement part of a block (ISO 7185, 6.2.1), as `parse` reads it. Where it fails behind its `begin`, the error tells
/// that `begin`; where none stands there, the failure is at that token.
pub fn read_statement_part(
    alloc: Global,
    tokens: &mut Cursor<'_>,
) -> Result<StatementPart, StoppedPart>
    ensures part { IfOk result (λ part. spec.statement_part OPENER_LIMIT tokens.old ≡ Ok (part, tokens.new)) }
    ensures stops { IfErr result (λ stopped. stopped.failure ≢ failure.Memory → spec.statement_part OPENER_LIMIT tokens.old ≡ Err stopped.failure) }
    ensures begin { IfErr result (λ stopped. stopped.begin ≡ open_begin tokens.old) }
{
    let begin = begin_left(tokens);
    match statement_part(alloc, tokens) {
        Ok(part) => Ok(part),
        Err(failure) => Err(StoppedPart { failure, begin }),
    }
}
