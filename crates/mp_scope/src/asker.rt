ghost use Rattle.std.specs.Prelude.{◌≡◌, [], Some};

use crate::scope::Scope;
use mp_base::{Memory, Name, Path, Place};
use mp_tables::{Asked, Given, Heading, Question, Seen, Shape, TypeId};
use sqlite_items::Items;
use std::alloc::Global;

/// A scope that passes each question on, and keeps it with its answer.
#[derive(Drop)]
pub struct Asker<S> {
    pub inner: S,
    /// The questions so far, in order.
    pub trace: Items<Asked>,
}

impl<S: Scope> Asker<S> {
    /// This scope, of which nothing was asked yet.
    pub fn new(alloc: Global, inner: S) -> Asker<S>
        ensures inner { result.inner ≡ inner }
        ensures trace { result.trace ≡ [] }
    {
        Asker {
            inner,
            trace: Items::new(alloc),
        }
    }

    /// The scope, and the questions that were asked, in order.
    pub fn finish(self) -> (S, Items<Asked>)
        ensures inner { result.0 ≡ self.inner }
        ensures trace { result.1 ≡ self.trace }
    {
        let Asker { inner, trace } = self;
        (inner, trace)
    }
}

impl<S: Scope> Scope for Asker<S> {
    ghost state = { λ s. record (S.state s.inner) { log = Some s.trace } };

    fn find(&mut self, name: &Name, place: &Place) -> Result<Seen, Memory> {
        let seen = self.inner.find(name, place)?;
        let place = Place {
            path: place.path.copy()?,
            ordinal: place.ordinal,
        };
        let question = Question::Name(name.copy()?, place);
        let answer = Given::Seen(seen.copy()?);
        self.trace.push(Asked { question, answer })?;
        Ok(seen)
    }

    fn shape(&mut self, id: &TypeId) -> Result<Shape, Memory> {
        let shape = self.inner.shape(id)?;
        let question = Question::Shape(id.copy()?);
        let answer = Given::Shape(shape.copy()?);
        self.trace.push(Asked { question, answer })?;
        Ok(shape)
    }

    fn heading(&mut self, path: &Path) -> Result<Heading, Memory> {
        let heading = self.inner.heading(path)?;
        let question = Question::Heading(path.copy()?);
        let answer = Given::Heading(heading.copy()?);
        self.trace.push(Asked { question, answer })?;
        Ok(heading)
    }

    fn assigns(&mut self, path: &Path) -> Result<bool, Memory> {
        let assigns = self.inner.assigns(path)?;
        let question = Question::Assigns(path.copy()?);
        let answer = Given::Assigns(assigns);
        self.trace.push(Asked { question, answer })?;
        Ok(assigns)
    }
}
