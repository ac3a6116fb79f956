ghost use Rattle.std.specs.Prelude.{◌≡◌};
ghost use Rattle.mp_layout.specs.Layouts.{offset_of};

use mp_base::Name;
use mp_tables::Shape;

/// The number of cells before the field of this name in a record (ISO 7185, 6.4.3.3). None exactly where the type is no
/// record with such a field.
pub fn field(shape: &Shape, name: &Name) -> Option<u32>
    ensures { result ≡ offset_of name.now shape.now }
{
    match shape {
        Shape::Rec(record) => record.slots.get(name).map(|slot| slot.offset),
        Shape::Arr(_) => None,
        Shape::Range(_) => None,
        Shape::Names(_) => None,
        Shape::SetOf(_, _) => None,
        Shape::Ptr(_) => None,
        Shape::Text => None,
        Shape::Str(_) => None,
    }
}
