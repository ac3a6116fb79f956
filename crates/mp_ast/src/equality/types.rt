use crate::equality::Same;
use crate::types::{Denoter, Index, Section, Variant, VariantPart};

impl<D: Same> Same for Index<D> {
    fn same(&self, other: &Index<D>) -> bool {
        self.at == other.at && self.of.same(&other.of)
    }
}

impl<D: Same> Same for Section<D> {
    fn same(&self, other: &Section<D>) -> bool {
        self.names.same(&other.names) && self.of.same(&other.of)
    }
}

impl<D: Same> Same for Variant<D> {
    fn same(&self, other: &Variant<D>) -> bool {
        self.constants.same(&other.constants) && self.fields.same(&other.fields)
    }
}

impl<D: Same> Same for VariantPart<D> {
    fn same(&self, other: &VariantPart<D>) -> bool {
        self.at == other.at
            && self.tag.same(&other.tag)
            && self.of.same(&other.of)
            && self.variants.same(&other.variants)
    }
}

// In a pair of one variant the parts of the one are a to d, in their order, and those of the other w to z or x to z.
impl Same for Denoter {
    fn same(&self, other: &Denoter) -> bool {
        match (self, other) {
            (Denoter::Named(a), Denoter::Named(x)) => a.same(x),
            (Denoter::Enumeration(a, b), Denoter::Enumeration(x, y)) => a.same(x) && b.same(y),
            (Denoter::Subrange(a, b), Denoter::Subrange(x, y)) => a.same(x) && b.same(y),
            (Denoter::Pointer(a, b), Denoter::Pointer(x, y)) => a.same(x) && b.same(y),
            (Denoter::Array(a, b, c, d), Denoter::Array(w, x, y, z)) => {
                a.same(w) && b.same(x) && c.same(y) && d.same(z)
            }
            (Denoter::Record(a, b, c), Denoter::Record(x, y, z)) => {
                a.same(x) && b.same(y) && c.same(z)
            }
            (Denoter::Set(a, b, c), Denoter::Set(x, y, z)) => {
                a.same(x) && b.same(y) && c.same(z)
            }
            (Denoter::File(a, b, c), Denoter::File(x, y, z)) => {
                a.same(x) && b.same(y) && c.same(z)
            }
            (Denoter::Fields(a, b), Denoter::Fields(x, y)) => a.same(x) && b.same(y),
            _ => false,
        }
    }
}
