ghost use Rattle.std.specs.Prelude.{◌≡◌, ◌≤◌, ◌+◌, ◌*◌, nat_abs};
ghost use Rattle.mp_base.specs.declared.limits.TheConstants.{CELL_LIMIT, MAXINT};
ghost use Rattle.mp_tables.specs.Sizes as size;
ghost use Rattle.mp_layout.specs.Layouts.{ValuesAre};

use mp_base::CELL_LIMIT;
use mp_tables::{Bounds, Shape};

/// A number of cells, saturated: at most one more than a program may have.
pub fn saturated(n: u64) -> u32
    ensures { result ≡ size.saturated n }
{
    n.min(CELL_LIMIT as u64 + 1) as u32
}

/// The number of cells of a type.
pub fn cells(shape: &Shape) -> u32
    ensures { result ≡ size.cells_of shape.now }
{
    match shape {
        Shape::Arr(array) => array.cells,
        Shape::Rec(record) => record.cells,
        Shape::Text => 2,
        Shape::Str(length) => *length,
        Shape::Range(_) => 1,
        Shape::Names(_) => 1,
        Shape::SetOf(_, _) => 1,
        Shape::Ptr(_) => 1,
    }
}

/// The number of values from the least to the greatest, which are ordinal numbers of the language.
pub fn values_in(low: i64, high: i64) -> u64
    requires low { nat_abs low ≤ MAXINT }
    requires high { nat_abs high ≤ MAXINT }
    ensures value { ValuesAre low high result }
    ensures small { result ≤ 2 * MAXINT + 1 }
{
    if low <= high {
        (high - low + 1) as u64
    } else {
        0
    }
}

// The number of values from the least to the greatest, saturated.
fn counted_values(bounds: &Bounds) -> u32
    ensures { result ≡ size.saturated (size.values_in bounds.now) }
{
    if bounds.low <= bounds.high {
        saturated(bounds.high.abs_diff(bounds.low).saturating_add(1))
    } else {
        0
    }
}

/// The number of cells of an array with this index, each of whose components has so many cells. One without an index has
/// none.
pub fn array_cells(index: &Option<Bounds>, component: u32) -> u32
    ensures { result ≡ size.array_cells index.now component }
{
    match index {
        Some(bounds) => saturated(counted_values(bounds) as u64 * component as u64),
        None => 0,
    }
}

/// The sum of these numbers of cells, saturated.
pub fn sum_of(sizes: &[u32]) -> u32
    ensures value { result ≡ size.sum_of sizes.now }
    ensures small { result ≤ CELL_LIMIT + 1 }
{
    let mut sum = 0;
    for size in sizes {
        sum = saturated(sum as u64 + *size as u64);
    }
    sum
}
