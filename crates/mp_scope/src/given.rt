// Whether tables give an answer. Nothing is copied, so that it takes no memory.
ghost use Rattle.std.specs.Prelude.{◌≡◌, [], ◌∷◌, bytes_eq, codes};
ghost use Rattle.std.specs.Cmp.Lexicographic.{pointwise};
ghost use Rattle.mp_tables.specs.declared.types.Shape.TheVariants as shapes;
ghost use Rattle.mp_tables.specs.RequiredNames as required;
ghost use Rattle.mp_tables.specs.Seen as spec;
ghost use Rattle.mp_scope.specs.GivesTest as test;
ghost use Rattle.mp_scope.specs.Lent.{seen_of};

use crate::search::{assigns, nested_at, own_shape, path_stands, seen};
use crate::sight::Sight;
use crate::tables::Tables;
use mp_base::{MAXINT, Name, PathStep};
use mp_tables::{Bounds, Decl, Given, Heading, Question, Seen, Shape, TypeId};

fn is_seen(sight: Sight<'_>, seen: &Seen) -> bool
    ensures { result ≡ ⟦<Seen as PartialEq>⟧.eq (seen_of sight.entry) seen.now }
{
    match (sight, seen) {
        (Sight::Is(found), Seen::Is(decl)) => found == decl,
        (Sight::Required(found), Seen::Is(decl)) => Decl::Required(found) == *decl,
        (Sight::NotYet, Seen::NotYet) => true,
        (Sight::Absent, Seen::Absent) => true,
        _ => false,
    }
}

fn is_true(names: &[Name]) -> bool
    ensures { result ≡ pointwise bytes_eq (codes "true" ∷ []) names.now }
{
    match names.split_first() {
        Some((name, rest)) => "true".as_bytes() == name.get() && rest.is_empty(),
        None => false,
    }
}

// Whether these are the constants of Boolean.
fn are_boolean(names: &[Name]) -> bool
    ensures { result ≡ pointwise bytes_eq (codes "false" ∷ codes "true" ∷ []) names.now }
{
    match names.split_first() {
        Some((name, rest)) => "false".as_bytes() == name.get() && is_true(rest),
        None => false,
    }
}

fn is_range(host: TypeId, low: i64, high: i64, shape: &Shape) -> bool
    ensures { result ≡ ⟦<Shape as PartialEq>⟧.eq (shapes.Range (record { host = host; low = low; high = high })) shape.now }
{
    Shape::Range(Bounds { host, low, high }) == *shape
}

// Whether this is the shape of a required type.
fn is_required(id: &TypeId, shape: &Shape) -> bool
    ensures { result ≡ test.shape_is (required.required_shape id.now) shape.now }
{
    match id {
        TypeId::Integer => is_range(TypeId::Integer, -(MAXINT as i64), MAXINT as i64, shape),
        TypeId::Boolean => match shape {
            Shape::Names(names) => are_boolean(names.as_slice()),
            Shape::Range(_)
            | Shape::Arr(_)
            | Shape::Rec(_)
            | Shape::SetOf(_, _)
            | Shape::Ptr(_)
            | Shape::Text
            | Shape::Str(_) => false,
        },
        TypeId::Char => is_range(TypeId::Char, 0, 255, shape),
        TypeId::Text => Shape::Text == *shape,
        TypeId::Own(_, _) => false,
    }
}

fn is_shape(tables: &Tables, id: &TypeId, shape: &Shape) -> bool
    ensures { result ≡ test.shape_is (spec.shape_of tables.now id.now) shape.now }
{
    match id {
        TypeId::Own(path, at) => match own_shape(tables, path.steps(), *at) {
            Some(own) => own == shape,
            None => false,
        },
        TypeId::Integer | TypeId::Boolean | TypeId::Char | TypeId::Text => is_required(id, shape),
    }
}

fn is_heading(tables: &Tables, path: &[PathStep], heading: &Heading) -> bool
    ensures { result ≡ ⟦<Heading as PartialEq>⟧.eq (spec.heading_of tables.now path.now) heading.now }
{
    match nested_at(tables, path) {
        Some(nested) => nested.heading == *heading,
        None => heading.formals.len() == 0 && heading.result.is_none(),
    }
}

/// Whether the answer to this question is this one.
pub fn is_given(tables: &Tables, question: &Question, answer: &Given) -> bool
    ensures { result ≡ test.gives tables.now question.now answer.now }
{
    match (question, answer) {
        (Question::Name(name, place), Given::Seen(given)) => {
            is_seen(seen(tables, name, place), given)
        }
        (Question::Shape(id), Given::Shape(shape)) => is_shape(tables, id, shape),
        (Question::Heading(path), Given::Heading(heading)) => {
            path_stands(tables, path.steps()) && is_heading(tables, path.steps(), heading)
        }
        (Question::Assigns(path), Given::Assigns(given)) => {
            path_stands(tables, path.steps()) && assigns(tables, path.steps()) == *given
        }
        _ => false,
    }
}
