// Array types (ISO 7185, 6.4.3.2).
ghost use Rattle.mp_tables.specs.declared.types.Shape.TheVariants as shape;
ghost use Rattle.mp_tables.specs.Reports.{Follows, ◌>>=◌ as ◌>>=ʳ◌};
ghost use Rattle.mp_tables.specs.Sizes as size;
ghost use Rattle.mp_tables.specs.Denoters as rule;
ghost use Rattle.mp_decl.specs.Judged.{known_of, MayAskIf};

use crate::heading_types::{file_in, size_of};
use crate::known::Known;
use crate::simple::new_type;
use crate::types::typed_here_if;
use mp_base::{Memory, Path};
use mp_layout::array_cells;
use mp_scope::Scope;
use mp_tables::{ArrayShape, Bounds, Shape, TypeId};
use std::alloc::Global;

/// The array type with this index type and this component type, whose identity has the ordinal `at`.
pub(crate) fn array_type<S: Scope>(
    alloc: Global,
    path: &Path,
    at: u32,
    packed: bool,
    index: Option<Bounds>,
    component: Option<TypeId>,
    scope: &mut S,
    known: &mut Known,
) -> Result<Option<TypeId>, Memory>
    requires { MayAskIf (S.state scope.old).stands path.now component }
    ensures { Follows (rule.typed_here_if path.now component >>=ʳ (λ t. rule.new_type path.now at (shape.Arr (record { packed = packed; index = index; component = component; size = rule.size_of t; cells = size.array_cells index (rule.size_of t); file = rule.file_in t })))) (S.state scope.old) (known_of known.old) (S.state scope.new) (known_of known.new) result }
{
    let t = typed_here_if(alloc, path, &component, scope, known)?;
    let size = size_of(&t);
    let cells = array_cells(&index, size);
    let shape = Shape::Arr(ArrayShape {
        packed,
        index,
        component,
        size,
        cells,
        file: file_in(&t),
    });
    new_type(path, at, shape, scope, known)
}
