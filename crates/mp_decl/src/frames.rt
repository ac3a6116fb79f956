// The frame of a block (ISO 7185, 6.2.1): the cells of its parameters, of a function's result, and of its variables.
ghost use Rattle.std.specs.Prelude.{◌≡◌, ◌++◌, ◌∷◌, [], OnOk, OnErr};
ghost use Rattle.mp_tables.specs.Elaboration as rule;

use mp_base::{Memory, Name};
use mp_layout::sum_of;
use mp_tables::{FrameKind, FrameSlot, TypeId};
use sqlite_items::Items;
use std::alloc::Global;
use std::marker::Model;

/// The slots of a frame, in order, and the number of their cells, so that each new one is put behind them in one step.
#[derive(Drop)]
pub struct Slots {
    items: Items<FrameSlot>,
    cells: u32,
}

impl Model for Slots {
    ghost use Rattle.std.specs.Prelude.{◌≡◌, List};
    ghost use Rattle.mp_tables.specs.declared.typed_statements.FrameSlot.{FrameSlot};
    ghost use Rattle.mp_tables.specs.Elaboration.{frame_cells};

    ghost Value = { List FrameSlot };

    ghost view = { λ slots. slots.items };

    ghost invariant = { λ slots. slots.cells ≡ frame_cells slots.items };
}

impl Slots {
    /// No slots.
    pub fn new(alloc: Global) -> Slots
        ensures { result ≡ [] }
    {
        Slots {
            items: Items::new(alloc),
            cells: 0,
        }
    }

    /// The number of the cells of all, up to one more than a program may have.
    pub fn cells(&self) -> u32
        ensures { result ≡ rule.frame_cells self.now }
    {
        self.cells
    }

    /// One more slot, behind the cells of the others.
    #[tactic(auto, using(crate::proofs::FrameLemmas::one_more))]
    pub fn push(
        &mut self,
        name: Name,
        kind: FrameKind,
        of: Option<TypeId>,
        cells: u32,
    ) -> Result<(), Memory>
        ensures added { OnOk result (self.new ≡ self.old ++ record { name = name; kind = kind; of = of; offset = rule.frame_cells self.old; cells = cells } ∷ []) }
        ensures kept { OnErr result (self.new ≡ self.old) }
    {
        let offset = self.cells;
        self.items.push(FrameSlot {
            name,
            kind,
            of,
            offset,
            cells,
        })?;
        self.cells = sum_of(&[offset, cells]);
        Ok(())
    }

    /// All of them, in order.
    pub fn items(self) -> Items<FrameSlot>
        ensures { result ≡ self }
    {
        let Slots { items, .. } = self;
        items
    }
}
