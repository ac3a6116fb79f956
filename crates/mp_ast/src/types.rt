ghost use Rattle.std.specs.Prelude.{◌≡◌};
ghost use Rattle.mp_ast.specs.PlainTypes.{plain_denoter};
ghost use Rattle.mp_ast.specs.FirstTokens.{first_of_denoter};

use crate::leaves::{Constant, Identifier};
use sqlite_items::{Boxed, Items};

/// An index type of an array (ISO 7185, 6.4.3.2). `D` is what type denoters are.
#[derive(Drop)]
pub struct Index<D> {
    /// The ordinal of the denoter's first token, or of the `,` before a further index type: it identifies the type of
    /// the array, or of the array in it, that has this index.
    pub at: u32,
    pub of: D,
}

/// Names of one type: fields of a record, or variables (ISO 7185, 6.4.3.3, 6.5.1).
#[derive(Drop)]
pub struct Section<D> {
    pub names: Items<Identifier>,
    pub of: Boxed<D>,
}

/// The constants of a variant, and its fields (ISO 7185, 6.4.3.3).
#[derive(Drop)]
pub struct Variant<D> {
    pub constants: Items<Constant>,
    pub fields: Boxed<D>,
}

/// The variant part of a record (ISO 7185, 6.4.3.3).
#[derive(Drop)]
pub struct VariantPart<D> {
    /// The ordinal of `case`.
    pub at: u32,
    /// The tag field's name, where the tag has a field.
    pub tag: Option<Identifier>,
    pub of: Identifier,
    pub variants: Items<Variant<D>>,
}

/// A type denoter (ISO 7185, 6.4.1). The ordinal of its first token identifies the new type that it denotes.
#[derive(Drop)]
pub enum Denoter {
    Named(Identifier),
    /// The ordinal of `(`, and the constants in order.
    Enumeration(u32, Items<Identifier>),
    /// The first and the last value.
    Subrange(Constant, Constant),
    /// The ordinal of `^`, and the domain type.
    Pointer(u32, Identifier),
    /// The ordinal of the first token, whether it is packed, the index types, and the component type.
    Array(u32, bool, Items<Index<Denoter>>, Boxed<Denoter>),
    /// The ordinal of the first token, whether it is packed, and the field list.
    Record(u32, bool, Boxed<Denoter>),
    /// The ordinal of the first token, whether it is packed, and the base type.
    Set(u32, bool, Boxed<Denoter>),
    /// The ordinal of the first token, that of `file`, and the component type.
    File(u32, u32, Boxed<Denoter>),
    /// A field list, which stands only in a record and in a variant: the fixed part and the variant part.
    Fields(Items<Section<Denoter>>, Option<VariantPart<Denoter>>),
}

impl Denoter {
    /// The ordinal of its first token; 0 for a field list, which is no type.
    pub fn first_token(&self) -> u32
        ensures { result ≡ first_of_denoter (plain_denoter self.now) }
    {
        match self {
            Denoter::Named(name) => name.at,
            Denoter::Enumeration(at, _) => *at,
            Denoter::Subrange(first, _) => first.first_token(),
            Denoter::Pointer(at, _) => *at,
            Denoter::Array(at, _, _, _) => *at,
            Denoter::Record(at, _, _) => *at,
            Denoter::Set(at, _, _) => *at,
            Denoter::File(at, _, _) => *at,
            Denoter::Fields(_, _) => 0,
        }
    }
}
