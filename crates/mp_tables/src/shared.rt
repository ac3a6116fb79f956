ghost use Rattle.std.specs.Prelude.{◌≡◌, ◌<◌, ◌^◌, IfOk, length};
ghost use Rattle.std.specs.Cmp.Lexicographic.{pointwise, lists_per};

use mp_base::Memory;
use sqlite_items::Items;
use std::alloc::Global;
use std::marker::Model;
use std::sync::Arc;

/// A list that copies share: a copy costs no more for a long list than for a short one. To a contract it is the plain
/// list.
#[derive(Drop)]
pub struct Shared<T> {
    items: Arc<Items<T>>,
}

impl<T> Model for Shared<T> {
    ghost use Rattle.std.specs.Prelude.{◌<◌, ◌^◌, List, length};
    ghost use Rattle.std.specs.Arc.{arc_value};
    ghost use Rattle.std.specs.Coded.{coded_list};

    ghost Value = { List T };

    ghost coded = { coded_list T.code };

    ghost view = { λ shared. arc_value shared.items };

    // No memory holds more, so that a number of items is an `i64` too.
    ghost invariant = { λ shared. length (arc_value shared.items) < 2 ^ 63 };
}

impl<T: PartialEq> PartialEq for Shared<T> {
    ghost eq = { pointwise T.eq };

    ghost laws = { lists_per T.laws };

    fn eq(&self, other: &Shared<T>) -> bool {
        self.items.as_slice() == other.items.as_slice()
    }
}

impl<T> Shared<T> {
    /// The same list, which is shared.
    pub fn copy(&self) -> Result<Shared<T>, Memory>
        ensures { IfOk result (λ shared. shared ≡ self.now) }
    {
        Ok(Shared {
            items: Arc::try_clone(&self.items)?,
        })
    }

    /// The list, in order.
    pub fn as_slice(&self) -> &[T]
        ensures { result.now ≡ self.now }
    {
        self.items.as_slice()
    }

    /// How many items the list has.
    pub fn len(&self) -> usize
        ensures value { result ≡ length self.now }
        ensures small { result < 2 ^ 63 }
    {
        self.items.len()
    }
}

impl<T: Drop> Shared<T> {
    /// This list, to be shared.
    pub fn new(alloc: Global, items: Items<T>) -> Result<Shared<T>, Memory>
        ensures { IfOk result (λ shared. shared ≡ items) }
    {
        if items.len() > isize::MAX as usize {
            return Err(Memory);
        }
        Ok(Shared {
            items: Arc::new(alloc, items)?,
        })
    }
}
