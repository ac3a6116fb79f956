ghost use Rattle.std.specs.Prelude.{◌≡◌};
ghost use Rattle.mp_tables.specs.TypeRelations as relation;

use crate::identities::same_if;
use mp_tables::{Formal, FormalKind, Heading};

// Whether two formal parameters are of one kind.
fn same_kind(a: FormalKind, b: FormalKind) -> bool
    ensures { result ≡ relation.same_kind a b }
{
    match (a, b) {
        (FormalKind::Value, FormalKind::Value) => true,
        (FormalKind::Variable, FormalKind::Variable) => true,
        (FormalKind::Procedure, FormalKind::Procedure) => true,
        (FormalKind::Function, FormalKind::Function) => true,
        _ => false,
    }
}

// Whether two formal parameters stand in sections of one number and depth, and are of one kind and type.
fn congruous_formals(a: &Formal, b: &Formal) -> bool
    ensures { result ≡ relation.congruous_formals a.now b.now }
{
    a.depth == b.depth
        && a.section == b.section
        && same_kind(a.kind, b.kind)
        && same_if(&a.of, &b.of)
}

// Whether two lists of formal parameters are congruous.
fn congruous_lists(a: &[Formal], b: &[Formal]) -> bool
    ensures { result ≡ relation.congruous_lists a.now b.now }
{
    if a.len() != b.len() {
        return false;
    }
    let mut at = 0;
    'pairs: while at < a.len() {
        if !congruous_formals(&a[at], &b[at]) {
            return false;
        }
        at += 1;
    }
    true
}

/// Whether two headings have congruous lists of formal parameters (ISO 7185, 6.6.3.6) and the same result type. The
/// names of the parameters do not count.
pub fn congruous(a: &Heading, b: &Heading) -> bool
    ensures { result ≡ relation.congruous a.now b.now }
{
    congruous_lists(a.formals.as_slice(), b.formals.as_slice()) && same_if(&a.result, &b.result)
}
