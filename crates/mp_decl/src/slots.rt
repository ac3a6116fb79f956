// What stands in the frame of a block beside its variables: its parameters, and a function's result (ISO 7185, 6.6.2, 6.6.3).
ghost use Rattle.std.specs.Prelude.{◌≡◌, IfOk};
ghost use Rattle.mp_tables.specs.Reports.{Follows};
ghost use Rattle.mp_tables.specs.Elaboration as rule;
ghost use Rattle.mp_decl.specs.Judged.{known_of, parameter_of, value_cells, MayAskIf};

use crate::known::Known;
use crate::parameters::FormalParameter;
use crate::types::typed_here;
use mp_base::{Memory, Name, Path};
use mp_layout::cells;
use mp_scope::Scope;
use mp_tables::{FormalKind, FrameKind, TypeId, copy_type};
use std::alloc::Global;

/// One more slot of the frame, behind the others.
pub(crate) fn add_slot<S: Scope>(
    name: Name,
    kind: FrameKind,
    of: Option<TypeId>,
    cells: u32,
    scope: &mut S,
    known: &mut Known,
) -> Result<(), Memory>
    ensures { Follows (rule.add_slot name kind of cells) (S.state scope.old) (known_of known.old) (S.state scope.new) (known_of known.new) result }
{
    known.frame.push(name, kind, of, cells)
}

/// The slot of a function's result, which has one cell.
pub(crate) fn result_slot<S: Scope>(
    name: &Name,
    of: &Option<TypeId>,
    scope: &mut S,
    known: &mut Known,
) -> Result<(), Memory>
    ensures { Follows (rule.result_slot name.now of.now) (S.state scope.old) (known_of known.old) (S.state scope.new) (known_of known.new) result }
{
    match of {
        Some(id) => add_slot(
            name.copy()?,
            FrameKind::Result,
            Some(id.copy()?),
            1,
            scope,
            known,
        ),
        None => Ok(()),
    }
}

/// The type of a value or variable parameter, where it is not missing.
pub(crate) fn parameter_type(p: &FormalParameter<'_>) -> Result<Option<TypeId>, Memory>
    ensures { IfOk result (λ id. id ≡ rule.parameter_type (parameter_of p.now)) }
{
    match p.formal.kind {
        FormalKind::Value => copy_type(&p.formal.of),
        FormalKind::Variable => copy_type(&p.formal.of),
        FormalKind::Procedure => Ok(None),
        FormalKind::Function => Ok(None),
    }
}

// The number of cells of a value parameter of this type.
fn value_cells<S: Scope>(
    alloc: Global,
    path: &Path,
    of: &Option<TypeId>,
    scope: &mut S,
    known: &mut Known,
) -> Result<u32, Memory>
    requires { MayAskIf (S.state scope.old).stands path.now of.now }
    ensures { Follows (value_cells path.now of.now) (S.state scope.old) (known_of known.old) (S.state scope.new) (known_of known.new) result }
{
    match of {
        Some(id) => {
            let t = typed_here(alloc, path, id.copy()?, scope, known)?;
            Ok(cells(&t.shape))
        }
        None => Ok(0),
    }
}

/// The number of cells of a parameter: those of its type, where it is a value parameter, and one otherwise.
pub(crate) fn parameter_cells<S: Scope>(
    alloc: Global,
    path: &Path,
    p: &FormalParameter<'_>,
    scope: &mut S,
    known: &mut Known,
) -> Result<u32, Memory>
    requires { MayAskIf (S.state scope.old).stands path.now p.now.formal.now.of }
    ensures { Follows (rule.parameter_cells path.now (parameter_of p.now)) (S.state scope.old) (known_of known.old) (S.state scope.new) (known_of known.new) result }
{
    match p.formal.kind {
        FormalKind::Value => value_cells(alloc, path, &p.formal.of, scope, known),
        FormalKind::Variable => Ok(1),
        FormalKind::Procedure => Ok(1),
        FormalKind::Function => Ok(1),
    }
}
