// Where reading goes on from a place of a list of items.
ghost use Rattle.std.specs.Prelude.{◌≡◌, ◌+◌, ◌-◌, ◌≤◌, drop, take, min};
ghost use Rattle.std.specs.List.{prefix_len};
ghost use Rattle.mp_base.specs.declared.limits.TheConstants.{MAXINT};
ghost use Rattle.mp_files.specs.Stored.{is_of};
ghost use Rattle.mp_files.specs.TextFiles.{sign_len, value_of};

use crate::item_list::ItemList;
use crate::items::ItemClass;
use mp_base::MAXINT;

// The place behind the items of a class that stand from a place on.
pub(crate) fn end_of(items: &ItemList, class: ItemClass, from: usize) -> usize
    ensures { result ≡ from + prefix_len (is_of class) (drop from items.now) }
{
    let mut end = from;
    'items: while let Some(item) = items.get(end) {
        if !item.is_of(class) {
            break;
        }
        end += 1;
    }
    end
}

// The place behind the sign that may stand at a place.
pub(crate) fn sign_end(items: &ItemList, at: usize) -> usize
    ensures { result ≡ at + sign_len (drop at items.now) }
{
    match items.get(at) {
        Some(item) => if item.is_sign() { at + 1 } else { at },
        None => at,
    }
}

// The value of the digits between two places, or one more than the greatest integer where it is larger.
pub(crate) fn value_between(items: &ItemList, from: usize, to: usize) -> u64
    requires { from ≤ to }
    ensures { result ≡ min (value_of (take (to - from) (drop from items.now))) (MAXINT + 1) }
{
    let mut value: u64 = 0;
    'digits: for at in from..to {
        if let Some(item) = items.get(at) {
            value = (10 * value + item.digit()).min(MAXINT + 1);
        }
    }
    value
}
