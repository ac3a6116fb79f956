ghost use Rattle.std.specs.Prelude.{◌≡◌, ◌≤◌, ◌+◌, IfOk};
ghost use Rattle.mp_base.specs.declared.limits.TheConstants.{CELL_LIMIT};
ghost use Rattle.mp_tables.specs.Sizes as size;

use crate::counts::{saturated, sum_of};
use mp_base::Memory;
use sqlite_items::Items;
use std::alloc::Global;

/// For each of these numbers of cells the sum of those before it, saturated.
pub fn offsets(alloc: Global, sizes: &[u32]) -> Result<Items<u32>, Memory>
    ensures { IfOk result (λ offsets. offsets ≡ size.offsets sizes.now) }
{
    let mut out = Items::new(alloc);
    let mut start = 0;
    for size in sizes {
        out.push(start)?;
        start = saturated(start as u64 + *size as u64);
    }
    Ok(out)
}

/// Where the variables of a block stand among its cells.
#[derive(Drop)]
pub struct Frame {
    /// The number of cells before each.
    pub offsets: Items<u32>,
    /// The number of all its cells.
    pub cells: u32,
    /// The number of its cells that count against the limit of a run.
    pub counted: u32,
}

/// The frame of one block, and how deep the block stands.
#[derive(Drop)]
pub struct Frames {
    pub own: Frame,
    pub depth: u32,
}

impl Frame {
    /// The frame of a block. The sizes are the numbers of cells of its parameters, of a function's result and of its
    /// variables, in this order. Behind them stand `extra` cells that do not count.
    pub fn new(alloc: Global, sizes: &[u32], extra: u32) -> Result<Frame, Memory>
        requires { extra ≤ CELL_LIMIT }
        ensures offsets { IfOk result (λ frame. frame.offsets ≡ size.offsets sizes.now) }
        ensures counted { IfOk result (λ frame. frame.counted ≡ size.sum_of sizes.now) }
        ensures cells { IfOk result (λ frame. frame.cells ≡ size.sum_of sizes.now + extra) }
    {
        let counted = sum_of(sizes);
        Ok(Frame {
            offsets: offsets(alloc, sizes)?,
            cells: counted + extra,
            counted,
        })
    }
}
