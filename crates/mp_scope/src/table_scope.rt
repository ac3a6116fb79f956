ghost use Rattle.std.specs.Prelude.{◌≡◌, ◌↔◌, IfOk, IsTrue, None, unwrap_or};
ghost use Rattle.mp_tables.specs.declared.types.Shape.TheVariants as shape;
ghost use Rattle.mp_tables.specs.Seen as spec;
ghost use Rattle.mp_tables.specs.Seen.{state_of};
ghost use Rattle.mp_scope.specs.Gives.{Gives};

use crate::given::is_given;
use crate::scope::Scope;
use crate::search::{assigns, nested_at, own_shape, seen};
use crate::sight::copied;
use crate::tables::Tables;
use mp_base::{Memory, Name, Path, PathStep, Place};
use mp_tables::{Asked, Heading, Seen, Shape, Shared, TypeId};
use mp_types::required_shape;
use sqlite_items::Items;
use std::alloc::Global;

/// The answers by tables. It tells no trace.
///
/// A type stands in it where it is a required one or where a block that was added defines it; a path, where it is the
/// program's, where its block was added, or where a block that was added has its block.
#[derive(Drop)]
pub struct TableScope<'a> {
    pub tables: &'a Tables,
    pub alloc: Global,
}

// The shape of a type. What has none is never asked for.
fn shape(alloc: Global, tables: &Tables, id: &TypeId) -> Result<Shape, Memory>
    ensures { IfOk result (λ r. r ≡ unwrap_or (spec.shape_of tables.now id.now) (shape.Ptr None)) }
{
    if let Some(shape) = required_shape(alloc, id)? {
        return Ok(shape);
    }
    match id {
        TypeId::Own(path, at) => match own_shape(tables, path.steps(), *at) {
            Some(shape) => shape.copy(),
            None => Ok(Shape::Ptr(None)),
        },
        TypeId::Integer | TypeId::Boolean | TypeId::Char | TypeId::Text => Ok(Shape::Ptr(None)),
    }
}

fn heading(alloc: Global, tables: &Tables, path: &[PathStep]) -> Result<Heading, Memory>
    ensures { IfOk result (λ heading. heading ≡ spec.heading_of tables.now path.now) }
{
    match nested_at(tables, path) {
        Some(nested) => nested.heading.copy(),
        None => Ok(Heading {
            formals: Shared::new(alloc, Items::new(alloc))?,
            result: None,
        }),
    }
}

impl<'a> Scope for TableScope<'a> {
    ghost state = { λ s. state_of s.tables.now };

    #[tactic(auto, using(crate::proofs::ClosedLemmas::seen_stands))]
    fn find(&mut self, name: &Name, place: &Place) -> Result<Seen, Memory> {
        self.tables.stand();
        copied(seen(self.tables, name, place))
    }

    #[tactic(auto, using(crate::proofs::ClosedLemmas::shape_stands))]
    fn shape(&mut self, id: &TypeId) -> Result<Shape, Memory> {
        self.tables.stand();
        shape(self.alloc, self.tables, id)
    }

    #[tactic(auto, using(crate::proofs::ClosedLemmas::heading_stands))]
    fn heading(&mut self, path: &Path) -> Result<Heading, Memory> {
        self.tables.stand();
        heading(self.alloc, self.tables, path.steps())
    }

    fn assigns(&mut self, path: &Path) -> Result<bool, Memory> {
        Ok(assigns(self.tables, path.steps()))
    }
}

impl<'a> TableScope<'a> {
    /// Whether the scope gives this answer: false where the type or the block that is asked of does not stand in it, and
    /// otherwise true exactly where its answer to the question is this one.
    pub fn gives(&self, pair: &Asked) -> bool
        ensures { IsTrue result ↔ Gives self.now.tables.now pair.now }
    {
        let given = is_given(self.tables, &pair.question, &pair.answer);
        given
    }
}
