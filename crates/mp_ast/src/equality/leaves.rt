use crate::equality::Same;
use crate::leaves::{CharacterString, Constant, Identifier, Number, Sign};

impl Same for Identifier {
    fn same(&self, other: &Identifier) -> bool {
        self.at == other.at && self.name.same(&other.name)
    }
}

impl Same for Number {
    fn same(&self, other: &Number) -> bool {
        self.at == other.at && self.value == other.value
    }
}

impl Same for CharacterString {
    fn same(&self, other: &CharacterString) -> bool {
        self.at == other.at && self.characters.get() == other.characters.get()
    }
}

impl Same for Sign {
    fn same(&self, other: &Sign) -> bool {
        self.at == other.at && self.kind == other.kind
    }
}

impl Same for Constant {
    fn same(&self, other: &Constant) -> bool {
        match (self, other) {
            (Constant::Number(a, b), Constant::Number(x, y)) => a.same(x) && b.same(y),
            (Constant::Name(a, b), Constant::Name(x, y)) => a.same(x) && b.same(y),
            (Constant::Text(a), Constant::Text(x)) => a.same(x),
            _ => false,
        }
    }
}
