ghost use Rattle.std.specs.Prelude.{◌≡◌, [], ◌∷◌, ◌++◌, IfOk};

use sqlite_items::Items;
use std::alloc::{AllocError, Global};

/// The list of one item, which has room for that item alone: of the lists in a tree most stay so.
pub fn single<T: Drop>(alloc: Global, item: T) -> Result<Items<T>, AllocError>
    ensures { IfOk result (λ items. items ≡ item ∷ []) }
{
    let mut items = Vec::with_capacity(alloc, 1)?;
    items.push(item)?;
    Ok(Items::from_vec(items))
}

/// A list with one more item behind it; the first has room for itself alone, as in `single`.
pub fn added<T: Drop>(alloc: Global, mut items: Items<T>, item: T) -> Result<Items<T>, AllocError>
    ensures { IfOk result (λ more. more ≡ items ++ item ∷ []) }
{
    if items.is_empty() {
        return single(alloc, item);
    }
    items.push(item)?;
    Ok(items)
}
