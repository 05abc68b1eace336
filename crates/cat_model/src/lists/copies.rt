//! Copies of items.

ghost use Rattle.std.specs.Prelude.{◌≡◌, [], IfOk};
ghost use Rattle.std.specs.List.{cons_option};
ghost use Rattle.std.specs.Option.{option_copied};

use crate::lists::joins::one;
use crate::{List, Memory};
use std::alloc::Global;

/// A copy of this item.
pub fn copy_of<T: Clone>(item: &T) -> Result<T, Memory>
    requires { (x y : T) → T.is_clone x y → y ≡ x }
    ensures { IfOk result (λ copy. copy ≡ item.now) }
{
    Ok(item.clone()?)
}

/// A copy of these items.
pub fn copied<T: Clone>(alloc: Global, items: &[T]) -> Result<List<T>, Memory>
    requires { (x y : T) → T.is_clone x y → y ≡ x }
    ensures { IfOk result (λ l. l ≡ items.now) }
{
    Ok(List::from(items.to_vec(alloc)?))
}

/// The list of a copy of the item, where there is one.
pub fn copy_if_any<T: Clone + Drop>(alloc: Global, item: Option<&T>) -> Result<List<T>, Memory>
    requires { (x y : T) → T.is_clone x y → y ≡ x }
    ensures { IfOk result (λ l. l ≡ cons_option (option_copied item.entry) []) }
{
    match item {
        None => Ok(List::new(alloc)),
        Some(item) => one(alloc, copy_of(item)?),
    }
}
