// What is wrong with the headings of procedures and functions (ISO 7185, 6.6.1, 6.6.2).
ghost use Rattle.std.specs.Prelude.{◌≡◌, is_some};
ghost use Rattle.mp_ast.specs.PlainHeadings.{formals_of, plain_formal_section};
ghost use Rattle.mp_ast.specs.PlainTrees.{plain_declaration};
ghost use Rattle.mp_tables.specs.DefiningPoints as points;
ghost use Rattle.mp_tables.specs.Reports.{Follows};
ghost use Rattle.mp_tables.specs.Headings as heading;
ghost use Rattle.mp_tables.specs.Elaboration as rule;

use crate::names::report_if;
use mp_ast::{Declaration, FormalSection, HeadingKind};
use mp_base::Memory;
use mp_scope::Scope;
use mp_tables::RuleError;
use sqlite_items::Items;

// Whether a heading has parameters.
fn has_formals(formals: &[FormalSection]) -> bool
    ensures { result ≡ rule.has_formals (formals_of plain_formal_section formals.now) }
{
    if formals.is_empty() {
        return false;
    }
    true
}

// Whether a heading names a result type.
fn has_result(kind: &HeadingKind) -> bool
    ensures { result ≡ is_some (heading.named_result kind.now) }
{
    match kind {
        HeadingKind::Procedure => false,
        HeadingKind::Function(result) => result.is_some(),
    }
}

/// Whether a heading is a function's.
pub(crate) fn is_function(kind: &HeadingKind) -> bool
    ensures { result ≡ points.is_function kind.now }
{
    match kind {
        HeadingKind::Procedure => false,
        HeadingKind::Function(_) => true,
    }
}

/// A heading that completes a forward one has neither parameters nor a result type.
pub(crate) fn completing_heading<S: Scope>(
    d: &Declaration,
    scope: &mut S,
    errors: &mut Items<RuleError>,
) -> Result<(), Memory>
    ensures { Follows (rule.completing_heading (plain_declaration d.now)) (S.state scope.old) errors.old (S.state scope.new) errors.new result }
{
    let wrong = has_formals(d.heading.formals.as_slice()) || has_result(&d.heading.kind);
    report_if(wrong, 313, d.heading.name.at, scope, errors)
}

/// A function's heading that completes no forward one names its result type.
pub(crate) fn first_heading<S: Scope>(
    d: &Declaration,
    scope: &mut S,
    errors: &mut Items<RuleError>,
) -> Result<(), Memory>
    ensures { Follows (rule.first_heading (plain_declaration d.now)) (S.state scope.old) errors.old (S.state scope.new) errors.new result }
{
    let wrong = is_function(&d.heading.kind) && !has_result(&d.heading.kind);
    report_if(wrong, 314, d.heading.name.at, scope, errors)
}
