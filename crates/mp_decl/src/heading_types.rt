// The types that headings name (ISO 7185, 6.6.2, 6.6.3.1).
ghost use Rattle.std.specs.Prelude.{◌≡◌, if◌then◌else◌, is_some};
ghost use Rattle.mp_tables.specs.Reports.{Follows, ◌>>=◌ as ◌>>=ʳ◌, pure, refuse};
ghost use Rattle.mp_tables.specs.Denoters as rule;
ghost use Rattle.mp_tables.specs.Headings as heading;
ghost use Rattle.mp_tables.specs.TypeRelations as relation;
ghost use Rattle.mp_decl.specs.Judged.{known_of, MayAskIf};

use crate::known::Known;
use crate::names::report;
use crate::types::typed_here_if;
use mp_base::{Memory, Path};
use mp_layout::cells;
use mp_scope::Scope;
use mp_tables::{Shape, TypeId, Typed};
use mp_types::{holds_file, ordinal};
use std::alloc::Global;

/// The number of cells of a type, 0 where it is missing.
pub(crate) fn size_of(t: &Option<Typed>) -> u32
    ensures { result ≡ rule.size_of t.now }
{
    match t {
        Some(t) => cells(&t.shape),
        None => 0,
    }
}

/// Whether a type is there and is or holds a file.
pub(crate) fn file_in(t: &Option<Typed>) -> bool
    ensures { result ≡ rule.file_in t.now }
{
    match t {
        Some(t) => holds_file(&t.shape),
        None => false,
    }
}

// Whether a type is a pointer type.
fn is_pointer(shape: &Shape) -> bool
    ensures { result ≡ heading.is_pointer shape.now }
{
    match shape {
        Shape::Ptr(_) => true,
        Shape::Range(_) => false,
        Shape::Names(_) => false,
        Shape::Arr(_) => false,
        Shape::Rec(_) => false,
        Shape::SetOf(_, _) => false,
        Shape::Text => false,
        Shape::Str(_) => false,
    }
}

// Whether a type is ordinal.
fn is_ordinal(t: &Typed) -> bool
    ensures { result ≡ is_some (relation.ordinal t.now) }
{
    ordinal(t).is_some()
}

// Whether a function may have this result type: one that is ordinal, a pointer type, or missing.
fn simple_or_pointer(t: &Option<Typed>) -> bool
    ensures { result ≡ heading.simple_or_pointer t.now }
{
    match t {
        Some(t) => is_ordinal(t) || is_pointer(&t.shape),
        None => true,
    }
}

// The type of a value parameter, whose name has this ordinal.
fn without_files<S: Scope>(
    at: u32,
    id: Option<TypeId>,
    t: &Option<Typed>,
    scope: &mut S,
    known: &mut Known,
) -> Result<Option<TypeId>, Memory>
    ensures { Follows (rule.by_rule (if rule.file_in t.now then refuse 320 at else pure id)) (S.state scope.old) (known_of known.old) (S.state scope.new) (known_of known.new) result }
{
    if file_in(t) {
        report(320, at, &mut known.errors)?;
        return Ok(None);
    }
    Ok(id)
}

// The type of a function's result, whose name has this ordinal.
fn with_simple<S: Scope>(
    at: u32,
    id: Option<TypeId>,
    t: &Option<Typed>,
    scope: &mut S,
    known: &mut Known,
) -> Result<Option<TypeId>, Memory>
    ensures { Follows (rule.by_rule (if heading.simple_or_pointer t.now then pure id else refuse 323 at)) (S.state scope.old) (known_of known.old) (S.state scope.new) (known_of known.new) result }
{
    if simple_or_pointer(t) {
        return Ok(id);
    }
    report(323, at, &mut known.errors)?;
    Ok(None)
}

/// The type of a value parameter, which may hold no file (ISO 7185, 6.6.3.2). Its name has this ordinal.
pub(crate) fn value_type<S: Scope>(
    alloc: Global,
    path: &Path,
    at: u32,
    id: Option<TypeId>,
    scope: &mut S,
    known: &mut Known,
) -> Result<Option<TypeId>, Memory>
    requires { MayAskIf (S.state scope.old).stands path.now id }
    ensures { Follows (rule.typed_here_if path.now id >>=ʳ (λ t. rule.by_rule (if rule.file_in t then refuse 320 at else pure id))) (S.state scope.old) (known_of known.old) (S.state scope.new) (known_of known.new) result }
{
    let t = typed_here_if(alloc, path, &id, scope, known)?;
    without_files(at, id, &t, scope, known)
}

/// The type of a function's result, which is ordinal or a pointer type (ISO 7185, 6.6.2). Its name has this ordinal.
pub(crate) fn result_type<S: Scope>(
    alloc: Global,
    path: &Path,
    at: u32,
    id: Option<TypeId>,
    scope: &mut S,
    known: &mut Known,
) -> Result<Option<TypeId>, Memory>
    requires { MayAskIf (S.state scope.old).stands path.now id }
    ensures { Follows (rule.typed_here_if path.now id >>=ʳ (λ t. rule.by_rule (if heading.simple_or_pointer t then pure id else refuse 323 at))) (S.state scope.old) (known_of known.old) (S.state scope.new) (known_of known.new) result }
{
    let t = typed_here_if(alloc, path, &id, scope, known)?;
    with_simple(at, id, &t, scope, known)
}
