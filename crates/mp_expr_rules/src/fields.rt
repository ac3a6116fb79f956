// Fields of records, and the variants that hold them (ISO 7185, 6.4.3.3).
ghost use Rattle.std.specs.Prelude.{◌≡◌, [], IfOk, None, Some, option_map, reverse, slice_get, unwrap_or};
ghost use Rattle.std.specs.Option.{option_copied};
ghost use Rattle.mp_tables.specs.Names as names;
ghost use Rattle.mp_expr_rules.specs.Regions.{field_of};

use crate::region::Field;
use mp_base::{Memory, Name};
use mp_tables::{FieldAt, Guard, Part, RecordShape, Shared, Within};
use sqlite_items::{Items, at};
use std::alloc::Global;

// These items, the last first.
#[tactic(auto, using(crate::proofs::ListLemmas::reverse_more))]
pub(crate) fn reversed<T: Drop>(alloc: Global, items: Items<T>) -> Result<Items<T>, Memory>
    ensures { IfOk result (λ r. r ≡ reverse items) }
{
    let mut rest = items;
    let mut out = Items::new(alloc);
    'items: while let Some(item) = rest.pop() {
        out.push(item)?;
    }
    Ok(out)
}

// The number of cells before the tag of a variant part.
fn tag_offset(of: &RecordShape, part: &Part) -> u32
    ensures { result ≡ unwrap_or (option_map (λ s. s.offset) (slice_get of.now.slots part.now.tag)) 0 }
{
    match at(of.slots.as_slice(), part.tag as usize) {
        Some(slot) => slot.offset,
        None => 0,
    }
}

// The constants that select a variant.
fn constants_of(alloc: Global, part: &Part, variant: u32) -> Result<Shared<i64>, Memory>
    ensures { IfOk result (λ r. r ≡ unwrap_or (option_map (λ x. x.constants) (slice_get part.now.variants variant)) []) }
{
    match at(part.variants.as_slice(), variant as usize) {
        Some(variant) => variant.constants.copy(),
        None => Shared::new(alloc, Items::new(alloc)),
    }
}

// A variant that must be active.
fn guard(
    alloc: Global,
    of: &RecordShape,
    variant: u32,
    part: Option<&Part>,
) -> Result<Guard, Memory>
    ensures { IfOk result (λ g. g ≡ names.guard_by of.now variant (option_copied part.entry)) }
{
    match part {
        Some(part) => Ok(Guard {
            slot: part.tag,
            offset: tag_offset(of, part),
            hidden: part.hidden,
            constants: constants_of(alloc, part, variant)?,
            slots: part.slots,
            cells: part.cells,
        }),
        None => Ok(Guard {
            slot: 0,
            offset: 0,
            hidden: true,
            constants: Shared::new(alloc, Items::new(alloc))?,
            slots: 0,
            cells: 0,
        }),
    }
}

// The variant that holds a variant part.
fn outer(part: Option<&Part>) -> Option<Within>
    ensures { result ≡ names.outer (option_copied part.entry) }
{
    match part {
        Some(part) => part.within,
        None => None,
    }
}

// The variants that hold a field, the outermost first.
#[tactic(auto, using(crate::proofs::ListLemmas::reverse_more))]
fn guards(alloc: Global, of: &RecordShape, within: Option<Within>) -> Result<Items<Guard>, Memory>
    ensures { IfOk result (λ r. r ≡ names.guards_from of.now of.now.parts within []) }
{
    let parts = of.parts.as_slice();
    let mut around = within;
    let mut found = Items::new(alloc);
    'variants: for _part in parts {
        let Some(w) = around else {
            return reversed(alloc, found);
        };
        let part = at(parts, w.part as usize);
        found.push(guard(alloc, of, w.variant, part)?)?;
        around = outer(part);
    }
    reversed(alloc, found)
}

/// A field in its record.
pub(crate) fn field_at(alloc: Global, name: &Name, field: Field<'_>) -> Result<FieldAt, Memory>
    ensures { IfOk result (λ r. r ≡ (field_of name.now field.entry).at) }
{
    if field.number > u32::MAX as usize {
        return Err(Memory);
    }
    Ok(FieldAt {
        name: name.copy()?,
        slot: field.number as u32,
        offset: field.slot.offset,
        guards: guards(alloc, field.of, field.slot.within)?,
    })
}
