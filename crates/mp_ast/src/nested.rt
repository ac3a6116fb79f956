ghost use Rattle.std.specs.Prelude.{◌≡◌, [], ◌∷◌, MatchOption, filter};
ghost use Rattle.mp_ast.specs.Blocks.{is_block};

use crate::blocks::{Declaration, DeclaredBody};

/// The first of these declarations with a block, and those behind it.
pub(crate) fn next_block(declarations: &[Declaration]) -> Option<(&Declaration, &[Declaration])>
    ensures { MatchOption result (filter (λ d. is_block d.body) declarations.now ≡ [])
        (λ next. filter (λ d. is_block d.body) declarations.now
        ≡ next.0.now ∷ filter (λ d. is_block d.body) next.1.now) }
{
    let mut rest = declarations;
    'declarations: while let [declaration, more @ ..] = rest {
        if let DeclaredBody::Block = declaration.body {
            return Some((declaration, more));
        }
        rest = more;
    }
    None
}
