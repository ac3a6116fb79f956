ghost use Rattle.std.specs.Prelude.{◌≡◌, length};
ghost use Rattle.std.specs.Option.{option_map};
ghost use Rattle.mp_tables.specs.TypeRelations as relation;
ghost use Rattle.mp_types.specs.Values.{bounds_of};

use crate::identities::same;
use mp_base::Name;
use mp_tables::{Shape, Shared, TypeId, Typed};

/// The values of an ordinal type (ISO 7185, 6.4.2): its host type, which is lent, and the ordinal numbers of the least
/// and the greatest value.
#[derive(Clone, Copy)]
pub struct Values<'a> {
    pub host: &'a TypeId,
    pub low: i64,
    pub high: i64,
}

// The values of an enumeration with these constants.
fn named<'a>(id: &'a Option<TypeId>, constants: &Shared<Name>) -> Option<Values<'a>>
    ensures { option_map bounds_of result ≡ relation.names_bounds id.now (length constants.now) }
{
    match id {
        Some(host) => Some(Values {
            host,
            low: 0,
            high: constants.len().saturating_sub(1) as i64,
        }),
        None => None,
    }
}

/// The values of a type, if it is ordinal.
pub fn ordinal<'a>(t: &'a Typed) -> Option<Values<'a>>
    ensures { option_map bounds_of result ≡ relation.ordinal t.now }
{
    match &t.shape {
        Shape::Range(bounds) => Some(Values {
            host: &bounds.host,
            low: bounds.low,
            high: bounds.high,
        }),
        Shape::Names(names) => named(&t.id, names),
        Shape::Arr(_) => None,
        Shape::Rec(_) => None,
        Shape::SetOf(_, _) => None,
        Shape::Ptr(_) => None,
        Shape::Text => None,
        Shape::Str(_) => None,
    }
}

/// Whether a type is ordinal with this host.
pub fn has_host(host: &TypeId, t: &Typed) -> bool
    ensures { result ≡ relation.has_host host.now t.now }
{
    match ordinal(t) {
        Some(values) => same(host, values.host),
        None => false,
    }
}

// Whether two types are ordinal with one host.
pub(crate) fn share_host(a: &Typed, b: &Typed) -> bool
    ensures { result ≡ relation.both relation.same_host (relation.ordinal a.now) (relation.ordinal b.now) }
{
    match (ordinal(a), ordinal(b)) {
        (Some(a), Some(b)) => same(a.host, b.host),
        _ => false,
    }
}
