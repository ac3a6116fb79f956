ghost use Rattle.std.specs.Prelude.{◌≡◌, IfOk, OnErr, IsTrue};
ghost use Rattle.mp_tables.specs.Asks as ask;
ghost use Rattle.mp_tables.specs.Asks.{State, FollowsAsks};
ghost use Rattle.mp_tables.specs.Standing.{SeenStands, ShapeStands, HeadingStands};

use mp_base::{Memory, Name, Path, Place};
use mp_tables::{Heading, Seen, Shape, TypeId};

/// Where names, types and headings are looked up.
///
/// A scope has two meanings that no call changes: its answer to each question, and which identities of types and which
/// paths of blocks stand in it. Every identity and path in an answer stands. It has a third, its trace, where it tells
/// it: a call that answers `Ok` adds its question with that answer and nothing else, and any other call leaves it.
pub trait Scope {
    // Its answers, what stands in it, and its trace where it tells one.
    ghost state: { Self → State };

    /// What a name is at a place (ISO 7185, 6.2.2).
    fn find(&mut self, name: &Name, place: &Place) -> Result<Seen, Memory>
        ensures answer { FollowsAsks (ask.find name.now place.now) (state self.old) (state self.new) result }
        ensures stands { IfOk result (λ seen. SeenStands (state self.old).stands (state self.old).path_stands seen) }
        ensures untouched { OnErr result (state self.new ≡ state self.old) };

    /// The shape of a type that stands.
    fn shape(&mut self, id: &TypeId) -> Result<Shape, Memory>
        requires { IsTrue ((state self.old).stands id.now) }
        ensures answer { FollowsAsks (ask.shape id.now) (state self.old) (state self.new) result }
        ensures stands { IfOk result (λ shape. ShapeStands (state self.old).stands shape) }
        ensures untouched { OnErr result (state self.new ≡ state self.old) };

    /// The parameters and the result of a block that stands: those of its forward heading, where it completes one. The
    /// program's block has none.
    fn heading(&mut self, path: &Path) -> Result<Heading, Memory>
        requires { IsTrue ((state self.old).path_stands path.now) }
        ensures answer { FollowsAsks (ask.heading path.now) (state self.old) (state self.new) result }
        ensures stands { IfOk result (λ heading. HeadingStands (state self.old).stands heading) }
        ensures untouched { OnErr result (state self.new ≡ state self.old) };

    /// Whether a function's block, or a block in it, assigns to the bare name of the function, by spelling. It is true
    /// of the program's block and of a procedure's.
    fn assigns(&mut self, path: &Path) -> Result<bool, Memory>
        requires { IsTrue ((state self.old).path_stands path.now) }
        ensures answer { FollowsAsks (ask.assigns path.now) (state self.old) (state self.new) result }
        ensures untouched { OnErr result (state self.new ≡ state self.old) };
}
