ghost use Rattle.std.specs.Prelude.{◌≡◌, ◌≢◌, ◌≤◌, ℕ, length, IfErr, IfOk, MatchResult, None};
ghost use Rattle.mp_ast.specs.declared.blocks.Tree.{Tree as SyntaxTree};
ghost use Rattle.mp_ast.specs.Programs.{Derives, kinds_of, standard};
ghost use Rattle.mp_parse.specs.Errors as spec;
ghost use Rattle.mp_parse.specs.Errors.{HasCodeExactly, NamesFirstError, first_error, told};
ghost use Rattle.mp_parse.specs.declared.errors.ParseError.TheVariants as error;

use crate::blocks::program;
use crate::errors::ParseError;
use mp_ast::{Lexed, SharedTree};
use mp_base::TEXT_LIMIT;
use mp_cursor::{Cursor, Failure};
use std::alloc::Global;

// The error of a failure in a text of so many tokens.
fn error_of(failure: Failure, count: usize) -> ParseError
    requires { count ≤ TEXT_LIMIT }
    ensures { result ≡ spec.error_of failure count }
{
    let (left, code) = match failure {
        Failure::Memory => return ParseError::Memory,
        Failure::Wrong(0) => (0, 202),
        Failure::Wrong(left) => (left, 201),
        Failure::TooDeep(left) => (left, 203),
        Failure::TooMany(left) => (left, 204),
    };
    ParseError::Syntax {
        token: count.saturating_sub(left) as u32,
        code,
    }
}

/// The tree of the program that the tokens are (ISO 7185, 6.2 to 6.10), by their kinds alone.
///
/// Where they are no program, the error names the first token with which no program begins, by its index; the number of
/// tokens stands for the end. Its code is 202 at the end, and 205 behind a whole program; 204 where a program without the
/// limit on declarations begins with the tokens up to that one, and 203 where only one without the limits on openers and
/// depth as well does; 201 otherwise.
pub fn parse(alloc: Global, lexed: &Lexed) -> Result<SharedTree, ParseError>
    requires { length lexed.now.tokens ≤ TEXT_LIMIT }
    ensures tree { IfOk result (λ t. Derives standard (kinds_of lexed.now.tokens) t) }
    ensures error { IfErr result (λ e. NamesFirstError (kinds_of lexed.now.tokens) e) }
    ensures code { IfErr result (λ e. (code : ℕ) → HasCodeExactly code (kinds_of lexed.now.tokens) e) }
    ensures found { MatchResult result (λ t. first_error (kinds_of lexed.now.tokens) ≡ None) (λ e. e ≢ error.Memory → first_error (kinds_of lexed.now.tokens) ≡ told e) }
    ensures only { (t : SyntaxTree) → Derives standard (kinds_of lexed.now.tokens) t → MatchResult result (λ found. found ≡ t) (λ e. e ≡ error.Memory) }
{
    let tokens = lexed.tokens.get();
    let mut cursor = Cursor::new(tokens);
    let found = match program(alloc, &mut cursor) {
        Ok(found) => found,
        Err(failure) => return Err(error_of(failure, tokens.len())),
    };
    let left = cursor.left();
    if left > 0 {
        let token = tokens.len().saturating_sub(left) as u32;
        return Err(ParseError::Syntax { token, code: 205 });
    }
    Ok(found)
}
