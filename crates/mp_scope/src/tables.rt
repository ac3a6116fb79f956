ghost use Rattle.std.specs.Prelude.{◌≡◌, [], ◌∷◌, ◌++◌, None, OnOk, OnErr};
ghost use Rattle.std.specs.Option.{option_copied};
ghost use Rattle.std.specs.Hash.{items_Alike};
ghost use Rattle.std.specs.Cmp.Lexicographic.{pointwise, lists_equiv};
ghost use Rattle.mp_base.specs.contracts.path.PathStepEq.TheImpl.Laws as same_step;
ghost use Rattle.mp_base.specs.contracts.path.PathStepHash.TheImpl.Laws as hashed_step;
ghost use Rattle.mp_tables.specs.Seen.{table_at};
ghost use Rattle.mp_scope.specs.Kept.{Closed, StandsIn};

use indexmap::{Equivalent, IndexMap};
use mp_base::{Memory, Path, PathStep};
use mp_tables::Table;
use std::alloc::Global;
use std::hash::Hash;
use std::marker::Model;

// The steps of a path, by which its block's table is looked up.
#[derive(Clone, Copy, PartialEq, Eq, Hash)]
struct Steps<'a> {
    steps: &'a [PathStep],
}

impl<'a> Equivalent<Path> for Steps<'a> {
    ghost equivalent = { λ q. pointwise ⟦<PathStep as PartialEq>⟧.eq q.steps.now };

    ghost respects_hash = { λ q. (items_Alike (record { fed = hashed_step.respects_eq-law })).fed q.steps.now };

    ghost respects_eq = { λ q. (lists_equiv same_step.laws-law).congr q.steps.now };

    fn equivalent(&self, key: &Path) -> bool {
        self.steps == key.steps()
    }
}

/// The tables of blocks of a program, in the order in which they were added. A table is found by its block's path in a
/// time that does not grow with their number. Every identity and path in them stands.
#[derive(Drop)]
pub struct Tables {
    by_path: IndexMap<Path, Table>,
}

impl Model for Tables {
    ghost use Rattle.std.specs.Prelude.{List};
    ghost use Rattle.std.specs.Map.{values_of};
    ghost use Rattle.mp_tables.specs.declared.tables.Table.{Table};
    ghost use Rattle.mp_scope.specs.Kept.{IsKept};

    ghost Value = { List Table };

    ghost view = { λ t. values_of t.by_path.entries };

    ghost invariant = { λ t. IsKept t.by_path.entries };
}

impl Tables {
    /// No tables.
    pub fn new(alloc: Global) -> Tables
        ensures { result ≡ [] }
    {
        Tables {
            by_path: IndexMap::new(alloc),
        }
    }

    /// The table of one more block, which must have none yet. Every identity and path in it must stand, by this table and
    /// those that were added.
    pub fn add(&mut self, table: Table) -> Result<(), Memory>
        requires new { table_at self.old table.path ≡ None }
        requires stands { StandsIn (self.old ++ table ∷ []) table }
        ensures ok { OnOk result (self.new ≡ self.old ++ table ∷ []) }
        ensures err { OnErr result (self.new ≡ self.old) }
    {
        let path = table.path.copy()?;
        self.by_path.insert(path, table)?;
        Ok(())
    }

    /// The table of the block with this path, where it was added.
    pub fn get(&self, path: &Path) -> Option<&Table>
        ensures { option_copied result ≡ table_at self.now path.now }
    {
        self.at(path.steps())
    }

    // The same, by the path's steps.
    pub(crate) fn at(&self, steps: &[PathStep]) -> Option<&Table>
        ensures { option_copied result ≡ table_at self.now steps.now }
    {
        self.by_path.get(Steps { steps })
    }

    /// Every identity and every path that the tables hold stands by them. It does nothing: it only says so.
    pub fn stand(&self)
        ensures { Closed self.now }
    {
        let _ = &self.by_path;
    }
    /// The tables, in the order in which they were added.
    pub fn as_slice(&self) -> &[Table]
        ensures { result.now ≡ self.now }
    {
        self.by_path.values().as_slice()
    }
}
