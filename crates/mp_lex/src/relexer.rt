ghost use Rattle.std.specs.Prelude.{◌≡◌, ◌+◌, ◌-◌, ◌⊎◌, ◌≤◌, IfOk, length};
ghost use Rattle.std.specs.List.Sorted.{IsNonDecreasingBy};
ghost use Rattle.mp_base.specs.declared.limits.TheConstants.{SCRIPT_LIMIT, TEXT_LIMIT};
ghost use Rattle.mp_lex.specs.Lexed.{lexical_errors, lexical_tokens};
ghost use Rattle.mp_lex.specs.Order.{AreErrorsInOrder, AreTokensInOrder};
ghost use Rattle.mp_lex.specs.Relexing.{IsChanged, kept_to, same_from};
ghost use Rattle.mp_lex.specs.Windows.{IsLexedTo, IsStop};

use crate::boundaries::{errors_kept_to, starts_again, tokens_kept_to};
use crate::change::Change;
use crate::copies::{add_before, add_moved};
use crate::items::meaning;
use crate::lexer::add;
use crate::window::{Window, read_item};
use mp_ast::{LexErrors, Lexed, Tokens};
use mp_base::{Memory, Reader, SCRIPT_LIMIT, Steps, TEXT_LIMIT};
use std::alloc::Global;

// Adds the tokens and errors of the new text from a place before the change on, up to the first place past it at which
// an old one starts again, which it gives; or else up to the end of the text.
fn add_changed<L, T: Reader<L>>(
    alloc: Global,
    tokens: &mut Tokens,
    errors: &mut LexErrors,
    old: &Lexed,
    text: &T,
    change: Change,
    from: u32,
    steps: &mut Steps<L>,
) -> Result<u32, Memory>
    requires short { length (T.bytes text.now) ≤ TEXT_LIMIT }
    requires tokens { IsNonDecreasingBy (λ token. token.start) old.now.tokens }
    requires errors { IsNonDecreasingBy (λ error. error.start) old.now.errors }
    requires removed { change.removed ≤ SCRIPT_LIMIT }
    requires added { change.start + change.added ≤ length (T.bytes text.now) }
    requires before { (from ≡ 0) ⊎ (from + 2 ≤ change.start) }
    requires lexed { IsLexedTo (T.bytes text.now) from tokens.old errors.old }
    ensures lexed { IfOk result (λ stop. IsLexedTo (T.bytes text.now) stop tokens.new errors.new) }
    ensures stop { IfOk result (λ stop. IsStop change old.now.tokens old.now.errors (T.bytes text.now) stop) }
    ensures steps { steps.new ≤ steps.old + (same_from change old.now.tokens old.now.errors (T.bytes text.now) - from) + 2 }
{
    let mut window = Window {
        from,
        bytes: Vec::new(alloc),
    };
    let len = text.len();
    let mut at: usize = 0;
    'items: while from + (at as u32) < len && !starts_again(old, change, from + at as u32) {
        let end = read_item(text, &mut window, at, steps)?;
        let found = meaning(alloc, &window.bytes[at..end])?;
        add(tokens, errors, found, from + at as u32, (end - at) as u32)?;
        at = end;
    }
    Ok(from + at as u32)
}

/// The tokens and lexical errors of a text that a change made of another, whose tokens and errors are known: those that
/// `lex` gives, read only round the change. What ends two bytes before the change is kept. From there on the bytes are
/// read, up to the first place past the change at which an old token or error starts again, and two bytes past it at
/// most; from that place on what there was is moved. It fails for want of memory alone.
pub fn relex<L, T: Reader<L>>(
    alloc: Global,
    old: &Lexed,
    text: &T,
    change: Change,
    steps: &mut Steps<L>,
) -> Result<Lexed, Memory>
    requires changed { IsChanged old.now.tokens old.now.errors change (T.bytes text.now) }
    requires short { length (T.bytes text.now) ≤ TEXT_LIMIT }
    ensures tokens { IfOk result (λ lexed. lexed.tokens ≡ lexical_tokens (T.bytes text.now)) }
    ensures errors { IfOk result (λ lexed. lexed.errors ≡ lexical_errors (T.bytes text.now)) }
    ensures tokens_in_order { IfOk result (λ lexed. AreTokensInOrder (T.bytes text.now) lexed.tokens) }
    ensures errors_in_order { IfOk result (λ lexed. AreErrorsInOrder (T.bytes text.now) lexed.errors) }
    ensures steps { steps.new ≤ steps.old + (same_from change old.now.tokens old.now.errors (T.bytes text.now) - kept_to change.start old.now.tokens old.now.errors) + 2 }
{
    let kept = tokens_kept_to(old.tokens.get(), change.start).max(errors_kept_to(
        old.errors.get(),
        change.start,
    ));
    let mut tokens = Tokens::with_capacity(alloc, old.tokens.get().len())?;
    let mut errors = LexErrors::new(alloc);
    add_before(alloc, &mut tokens, &mut errors, old, kept)?;
    let stop = add_changed(
        alloc,
        &mut tokens,
        &mut errors,
        old,
        text,
        change,
        kept,
        steps,
    )?;
    let before = stop + change.removed - change.added;
    add_moved(alloc, &mut tokens, &mut errors, old, before, stop)?;
    Ok(Lexed { tokens, errors })
}
