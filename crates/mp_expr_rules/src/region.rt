use mp_base::{Name, Path};
use mp_tables::{Decl, RecordShape, Slot};
use sqlite_items::Items;

/// A record that a `with` has opened, where it has a type, and how many were opened around it in the block.
#[derive(Drop)]
pub struct Opened {
    pub number: u32,
    pub fields: Option<RecordShape>,
}

/// A place in the statement part of a block: the records open there, the innermost first, and the control variables of
/// the `for` statements in whose bodies it stands (ISO 7185, 6.8.3.9, 6.8.3.10).
#[derive(Drop)]
pub struct Region {
    pub path: Path,
    pub opened: Items<Opened>,
    pub controlled: Items<Name>,
}

/// A field of a record, lent: the record, and the field's number among its slots.
#[derive(Clone, Copy)]
pub struct Field<'a> {
    pub of: &'a RecordShape,
    pub number: usize,
    pub slot: &'a Slot,
}

/// A field of a record that a `with` has opened: the record's number, and the field.
#[derive(Clone, Copy)]
pub struct OpenField<'a> {
    pub number: u32,
    pub field: Field<'a>,
}

/// What a name is in a statement: a field of an open record hides what the blocks declare (ISO 7185, 6.8.3.10).
#[derive(Drop)]
pub enum Use<'a> {
    OpenField(u32, Field<'a>),
    Declared(Decl),
}
