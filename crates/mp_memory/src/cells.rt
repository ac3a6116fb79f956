ghost use Rattle.std.specs.Prelude.{◌≡◌};

use crate::member_set::MemberSet;

/// A cell of the machine: what a variable, a reference, a procedural value or a file stands for.
#[derive(Drop)]
pub enum Cell {
    /// No value yet, or none any more (ISO 7185, 3.2 and 6.5.1).
    Undef,
    /// A value of an ordinal type, by its ordinal number.
    Int(i64),
    /// A value of a set type.
    Members(MemberSet),
    /// An object's number, or 0 for nil.
    Ptr(u64),
    /// A procedural value: the number that the machine gave to the block, and the number of the activation that is its
    /// static parent.
    Code { block: u64, act: u64 },
    /// A reference to the cell at the offset under the root.
    Ref { root: u64, offset: u32 },
    /// A file's number.
    FileNo(u64),
}

impl Cell {
    /// The same cell.
    pub fn copy(&self) -> Cell
        ensures { result ≡ self.now }
    {
        match self {
            Cell::Undef => Cell::Undef,
            Cell::Int(number) => Cell::Int(*number),
            Cell::Members(set) => Cell::Members(set.copy()),
            Cell::Ptr(object) => Cell::Ptr(*object),
            Cell::Code { block, act } => Cell::Code {
                block: *block,
                act: *act,
            },
            Cell::Ref { root, offset } => Cell::Ref {
                root: *root,
                offset: *offset,
            },
            Cell::FileNo(file) => Cell::FileNo(*file),
        }
    }
}
