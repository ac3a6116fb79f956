ghost use Rattle.std.specs.Prelude.{◌≡◌, ◌↔◌, IsTrue};

use crate::blocks::{
    Block, BlockTree, ConstantDefinition, Declaration, DeclaredBody, ProgramHeading, StatementPart,
    TypeDefinition,
};
use crate::equality::Same;

impl Same for ProgramHeading {
    fn same(&self, other: &ProgramHeading) -> bool {
        self.name.same(&other.name) && self.parameters.same(&other.parameters)
    }
}

impl Same for ConstantDefinition {
    fn same(&self, other: &ConstantDefinition) -> bool {
        self.name.same(&other.name)
            && self.value.same(&other.value)
            && self.semicolon == other.semicolon
    }
}

impl Same for TypeDefinition {
    fn same(&self, other: &TypeDefinition) -> bool {
        self.name.same(&other.name) && self.of.same(&other.of) && self.semicolon == other.semicolon
    }
}

impl Same for DeclaredBody {
    fn same(&self, other: &DeclaredBody) -> bool {
        match (self, other) {
            (DeclaredBody::Block, DeclaredBody::Block) => true,
            (DeclaredBody::Forward(a), DeclaredBody::Forward(x)) => a.same(x),
            _ => false,
        }
    }
}

impl Same for Declaration {
    fn same(&self, other: &Declaration) -> bool {
        self.heading.same(&other.heading)
            && self.semicolon == other.semicolon
            && self.body.same(&other.body)
    }
}

impl Same for StatementPart {
    fn same(&self, other: &StatementPart) -> bool {
        let StatementPart::Compound(begin, statements, end) = self;
        let StatementPart::Compound(other_begin, others, other_end) = other;
        begin == other_begin && statements.same(others) && end == other_end
    }
}

impl Same for Block {
    fn same(&self, other: &Block) -> bool {
        self.tokens == other.tokens
            && self.program.same(&other.program)
            && self.labels.same(&other.labels)
            && self.constants.same(&other.constants)
            && self.types.same(&other.types)
            && self.variables.same(&other.variables)
            && self.declarations.same(&other.declarations)
            && self.statements.same(&other.statements)
    }
}

impl BlockTree {
    /// Whether the two are the same tree, whether or not they share it. It takes no memory, and time for each node up to
    /// the first that differs.
    pub fn same(&self, other: &BlockTree) -> bool
        ensures { IsTrue result ↔ (self.now ≡ other.now) }
    {
        self.get().same(other.get())
    }
}
