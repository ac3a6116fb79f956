use crate::equality::Same;
use crate::headings::{FormalSection, HeadingKind, HeadingTree};

// In a pair of one variant the parts of the one are a to d, in their order, and those of the other w to z or x to z.
impl Same for FormalSection {
    fn same(&self, other: &FormalSection) -> bool {
        match (self, other) {
            (FormalSection::Values(a, b), FormalSection::Values(x, y)) => a.same(x) && b.same(y),
            (FormalSection::Variables(a, b, c), FormalSection::Variables(x, y, z)) => {
                a.same(x) && b.same(y) && c.same(z)
            }
            (FormalSection::Procedure(a, b, c), FormalSection::Procedure(x, y, z)) => {
                a.same(x) && b.same(y) && c.same(z)
            }
            (FormalSection::Function(a, b, c, d), FormalSection::Function(w, x, y, z)) => {
                a.same(w) && b.same(x) && c.same(y) && d.same(z)
            }
            _ => false,
        }
    }
}

impl Same for HeadingKind {
    fn same(&self, other: &HeadingKind) -> bool {
        match (self, other) {
            (HeadingKind::Procedure, HeadingKind::Procedure) => true,
            (HeadingKind::Function(a), HeadingKind::Function(x)) => a.same(x),
            _ => false,
        }
    }
}

impl Same for HeadingTree {
    fn same(&self, other: &HeadingTree) -> bool {
        self.at == other.at
            && self.name.same(&other.name)
            && self.formals.same(&other.formals)
            && self.kind.same(&other.kind)
    }
}
