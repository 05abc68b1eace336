//! Lists of a few items, and lists one behind the other.

ghost use Rattle.std.specs.Prelude.{◌≡◌, ◌∷◌, ◌++◌, [], IfOk};

use crate::{List, Memory};
use std::alloc::Global;

/// The list of this item.
pub fn one<T: Drop>(alloc: Global, item: T) -> Result<List<T>, Memory>
    ensures { IfOk result (λ l. l ≡ item ∷ []) }
{
    let mut all = List::new(alloc);
    all.push(item)?;
    Ok(all)
}

/// The list of these two items.
pub fn two<T: Drop>(alloc: Global, first: T, second: T) -> Result<List<T>, Memory>
    ensures { IfOk result (λ l. l ≡ first ∷ second ∷ []) }
{
    let mut all = one(alloc, first)?;
    all.push(second)?;
    Ok(all)
}

/// The smaller items, the new one and the greater ones.
pub fn around<T: Drop>(smaller: List<T>, new: T, greater: List<T>) -> Result<List<T>, Memory>
    ensures { IfOk result (λ l. l ≡ smaller ++ new ∷ greater) }
{
    let mut all = smaller.into_vec();
    all.push(new)?;
    all.append(&mut greater.into_vec())?;
    Ok(List::from(all))
}

/// The one list and then the other.
pub fn joined<T: Drop>(first: List<T>, second: List<T>) -> Result<List<T>, Memory>
    ensures { IfOk result (λ l. l ≡ first ++ second) }
{
    let mut all = first.into_vec();
    all.append(&mut second.into_vec())?;
    Ok(List::from(all))
}
