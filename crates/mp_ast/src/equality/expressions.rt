use crate::equality::Same;
use crate::expressions::{Access, Actual, Expr, Member, Operation, Selector, Width};

impl<X: Same> Same for Operation<X> {
    fn same(&self, other: &Operation<X>) -> bool {
        self.at == other.at && self.operator == other.operator && self.operand.same(&other.operand)
    }
}

impl<X: Same> Same for Selector<X> {
    fn same(&self, other: &Selector<X>) -> bool {
        match (self, other) {
            (Selector::Index(a, b), Selector::Index(x, y)) => a.same(x) && b.same(y),
            (Selector::Field(a, b), Selector::Field(x, y)) => a.same(x) && b.same(y),
            (Selector::Follow(a), Selector::Follow(x)) => a.same(x),
            _ => false,
        }
    }
}

impl<X: Same> Same for Access<X> {
    fn same(&self, other: &Access<X>) -> bool {
        self.name.same(&other.name) && self.selectors.same(&other.selectors)
    }
}

impl<X: Same> Same for Width<X> {
    fn same(&self, other: &Width<X>) -> bool {
        self.at == other.at && self.value.same(&other.value)
    }
}

impl<X: Same> Same for Actual<X> {
    fn same(&self, other: &Actual<X>) -> bool {
        self.value.same(&other.value) && self.width.same(&other.width)
    }
}

impl<X: Same> Same for Member<X> {
    fn same(&self, other: &Member<X>) -> bool {
        self.first.same(&other.first) && self.last.same(&other.last)
    }
}

// In a pair of one variant the parts of the one are a, b and c, in their order, and those of the other x, y and z.
impl Same for Expr {
    fn same(&self, other: &Expr) -> bool {
        match (self, other) {
            (Expr::Number(a), Expr::Number(x)) => a.same(x),
            (Expr::Text(a), Expr::Text(x)) => a.same(x),
            (Expr::Nil(a), Expr::Nil(x)) => a.same(x),
            (Expr::Access(a), Expr::Access(x)) => a.same(x),
            (Expr::Call(a, b), Expr::Call(x, y)) => a.same(x) && b.same(y),
            (Expr::Inside(a, b), Expr::Inside(x, y)) => a.same(x) && b.same(y),
            (Expr::Not(a, b), Expr::Not(x, y)) => a.same(x) && b.same(y),
            (Expr::Set(a, b), Expr::Set(x, y)) => a.same(x) && b.same(y),
            (Expr::Product(a, b), Expr::Product(x, y)) => a.same(x) && b.same(y),
            (Expr::Sum(a, b, c), Expr::Sum(x, y, z)) => a.same(x) && b.same(y) && c.same(z),
            (Expr::Relation(a, b), Expr::Relation(x, y)) => a.same(x) && b.same(y),
            _ => false,
        }
    }
}
