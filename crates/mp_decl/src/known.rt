use crate::frames::Slots;
use mp_tables::{Heading, Names, NestedBlocks, RuleError, Shapes};
use sqlite_items::Items;

/// The heading that a name's first heading gives, by the ordinal of that name.
#[derive(Drop)]
pub struct Headed {
    pub at: u32,
    pub heading: Heading,
}

/// What is known of a block while its declarations are read.
#[derive(Drop)]
pub struct Known {
    pub names: Names,
    pub shapes: Shapes,
    /// The headings of procedures and functions, the latest first.
    pub headings: Items<Headed>,
    pub nested: NestedBlocks,
    /// The frame so far.
    pub frame: Slots,
    pub errors: Items<RuleError>,
}
