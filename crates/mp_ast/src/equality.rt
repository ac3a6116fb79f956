//! Equality by running, for a block's own tree and each part of one.
//!
//! `PartialEq` would not serve: to generic code it tells less than that two values are the same, and the lists and boxes
//! of the trees have none. There is a loop for lists alone, so that the depth of the calls is that of the tree.
ghost use Rattle.std.specs.Prelude.{◌≡◌, ◌↔◌, IsTrue};

mod blocks;
mod expressions;
mod headings;
mod leaves;
mod statements;
mod types;

use sqlite_items::{Boxed, Items};

/// What can be compared: a block's own tree and whatever stands in one, with the ordinals of all tokens.
pub trait Same {
    /// Whether the two are the same. It takes no memory.
    fn same(&self, other: &Self) -> bool
        ensures { IsTrue result ↔ (self.now ≡ other.now) };
}

impl Same for bool {
    fn same(&self, other: &bool) -> bool {
        self == other
    }
}

impl Same for u32 {
    fn same(&self, other: &u32) -> bool {
        self == other
    }
}

impl<T: Same> Same for Option<T> {
    fn same(&self, other: &Option<T>) -> bool {
        match (self, other) {
            (None, None) => true,
            (Some(value), Some(other)) => value.same(other),
            _ => false,
        }
    }
}

impl<T: Same> Same for Boxed<T> {
    fn same(&self, other: &Boxed<T>) -> bool {
        self.get().same(other.get())
    }
}

impl<T: Same> Same for Items<T> {
    fn same(&self, other: &Items<T>) -> bool {
        let (items, others) = (self.as_slice(), other.as_slice());
        if items.len() != others.len() {
            return false;
        }
        let mut at = 0;
        'items: while at < items.len() {
            if !items[at].same(&others[at]) {
                return false;
            }
            at += 1;
        }
        true
    }
}
