use crate::equality::Same;
use crate::statements::{Arm, ForHead, Statement};

impl Same for ForHead {
    fn same(&self, other: &ForHead) -> bool {
        self.variable.same(&other.variable)
            && self.assign == other.assign
            && self.first.same(&other.first)
            && self.direction == other.direction
            && self.last.same(&other.last)
    }
}

impl<S: Same> Same for Arm<S> {
    fn same(&self, other: &Arm<S>) -> bool {
        self.constants.same(&other.constants) && self.body.same(&other.body)
    }
}

// In a pair of one variant the parts of the one are a to d, in their order, and those of the other w to z or x to z.
impl Same for Statement {
    fn same(&self, other: &Statement) -> bool {
        match (self, other) {
            (Statement::Labelled(a, b), Statement::Labelled(x, y)) => a.same(x) && b.same(y),
            (Statement::Empty(a), Statement::Empty(x)) => a.same(x),
            (Statement::Assign(a, b, c), Statement::Assign(x, y, z)) => {
                a.same(x) && b.same(y) && c.same(z)
            }
            (Statement::Call(a, b), Statement::Call(x, y)) => a.same(x) && b.same(y),
            (Statement::Goto(a, b), Statement::Goto(x, y)) => a.same(x) && b.same(y),
            (Statement::Compound(a, b), Statement::Compound(x, y)) => a.same(x) && b.same(y),
            (Statement::If(a, b, c, d), Statement::If(w, x, y, z)) => {
                a.same(w) && b.same(x) && c.same(y) && d.same(z)
            }
            (Statement::Case(a, b, c), Statement::Case(x, y, z)) => {
                a.same(x) && b.same(y) && c.same(z)
            }
            (Statement::While(a, b, c), Statement::While(x, y, z)) => {
                a.same(x) && b.same(y) && c.same(z)
            }
            (Statement::Repeat(a, b, c), Statement::Repeat(x, y, z)) => {
                a.same(x) && b.same(y) && c.same(z)
            }
            (Statement::For(a, b, c), Statement::For(x, y, z)) => {
                a.same(x) && b.same(y) && c.same(z)
            }
            (Statement::With(a, b, c), Statement::With(x, y, z)) => {
                a.same(x) && b.same(y) && c.same(z)
            }
            _ => false,
        }
    }
}
