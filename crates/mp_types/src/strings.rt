ghost use Rattle.std.specs.Prelude.{◌≡◌, Some, None};
ghost use Rattle.mp_tables.specs.declared.types.Shape.TheVariants as shape;
ghost use Rattle.mp_tables.specs.TypeRelations as relation;
ghost use Rattle.mp_types.specs.Values.{form_of};

use crate::identities::same;
use mp_tables::{ArrayShape, Bounds, Shape, TypeId};

/// Whether a type is a string type, and of which length (ISO 7185, 6.4.3.2).
#[derive(Clone, Copy, PartialEq, Eq)]
pub enum StringForm {
    NoString,
    /// A string type, or a character-string, of so many characters.
    OfLength(u64),
    /// A type that may be a string type, with a part that is missing.
    OfSomeLength,
}

// Whether an index goes over integers, from 1 to more than 1.
fn is_string_index(b: &Bounds) -> bool
    ensures { result ≡ relation.is_string_index b.now }
{
    same(&TypeId::Integer, &b.host) && b.low == 1 && 1 < b.high
}

// The form of an array without an index, by its components.
fn form_by_component(component: &Option<TypeId>) -> StringForm
    ensures { form_of result ≡ relation.string_by None component.now }
{
    match component {
        Some(component) if !same(&TypeId::Char, component) => StringForm::NoString,
        _ => StringForm::OfSomeLength,
    }
}

// The form of an array with this index.
fn form_by_index(index: &Bounds, component: &Option<TypeId>) -> StringForm
    ensures { form_of result ≡ relation.string_by (Some index.now) component.now }
{
    if !is_string_index(index) {
        return StringForm::NoString;
    }
    match component {
        Some(component) if same(&TypeId::Char, component) => {
            StringForm::OfLength(index.high.unsigned_abs())
        }
        Some(_) => StringForm::NoString,
        None => StringForm::OfSomeLength,
    }
}

// The form of an array type.
fn array_form(a: &ArrayShape) -> StringForm
    ensures { form_of result ≡ relation.string_form (shape.Arr a.now) }
{
    if !a.packed {
        return StringForm::NoString;
    }
    match &a.index {
        Some(index) => form_by_index(index, &a.component),
        None => form_by_component(&a.component),
    }
}

/// Whether a type is a string type, and of which length.
pub fn string_form(s: &Shape) -> StringForm
    ensures { form_of result ≡ relation.string_form s.now }
{
    match s {
        Shape::Str(length) => StringForm::OfLength(*length as u64),
        Shape::Arr(array) => array_form(array),
        Shape::Range(_) => StringForm::NoString,
        Shape::Names(_) => StringForm::NoString,
        Shape::Rec(_) => StringForm::NoString,
        Shape::SetOf(_, _) => StringForm::NoString,
        Shape::Ptr(_) => StringForm::NoString,
        Shape::Text => StringForm::NoString,
    }
}

/// Whether a type is a string type, or may be one.
pub fn is_string(s: &Shape) -> bool
    ensures { result ≡ relation.is_string s.now }
{
    match string_form(s) {
        StringForm::NoString => false,
        StringForm::OfLength(_) => true,
        StringForm::OfSomeLength => true,
    }
}

// Whether two forms are of strings of one length, as far as it is known.
pub(crate) fn equal_length(a: StringForm, b: StringForm) -> bool
    ensures { result ≡ relation.equal_length (form_of a) (form_of b) }
{
    match (a, b) {
        (StringForm::NoString, _) => false,
        (_, StringForm::NoString) => false,
        (StringForm::OfLength(m), StringForm::OfLength(n)) => m == n,
        _ => true,
    }
}
