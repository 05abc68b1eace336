//! What is made of each item of a list.

ghost use Rattle.std.specs.Prelude.{◌≡◌, Bool, List, Option, Result, Ok, IfOk, filter, map};
ghost use Rattle.std.specs.List.{filter_map};
ghost use Rattle.std.specs.Fn.{FnReturnsAt};
ghost use Rattle.cat_model.specs.Lists.{flat};

use crate::{List, Memory};
use std::alloc::Global;

/// Copies of the items that pass the test.
pub fn kept<T: Clone, F: Fn(&T) -> bool>(
    alloc: Global,
    items: &[T],
    test: F,
) -> Result<List<T>, Memory>
    requires clones { (x y : T) → T.is_clone x y → y ≡ x }
    requires callable { F.IsAlwaysCallable test }
    ensures { IfOk result (λ l. (p : T → Bool) → ((x : T) (b : Bool) → FnReturnsAt F.Fn test x b → b ≡ p x) → l ≡ filter p items.now) }
{
    let mut found = Vec::new(alloc);
    for item in items {
        if test(item) {
            found.push(item.clone()?)?;
        }
    }
    Ok(List::from(found))
}

/// What is made of each item.
pub fn made<T, U: Drop, F: Fn(&T) -> Result<U, Memory>>(
    alloc: Global,
    items: &[T],
    make: F,
) -> Result<List<U>, Memory>
    requires { F.IsAlwaysCallable make }
    ensures { IfOk result (λ l. (f : T → U) → ((x : T) (y : U) → FnReturnsAt F.Fn make x (Ok y) → y ≡ f x) → l ≡ map f items.now) }
{
    let mut all = Vec::new(alloc);
    for item in items {
        all.push(make(item)?)?;
    }
    Ok(List::from(all))
}

/// What is made of those items of which something is.
pub fn chosen<T, U: Drop, F: Fn(&T) -> Result<Option<U>, Memory>>(
    alloc: Global,
    items: &[T],
    make: F,
) -> Result<List<U>, Memory>
    requires { F.IsAlwaysCallable make }
    ensures { IfOk result (λ l. (f : T → Option U) → ((x : T) (y : Option U) → FnReturnsAt F.Fn make x (Ok y) → y ≡ f x) → l ≡ filter_map f items.now) }
{
    let mut all = Vec::new(alloc);
    for item in items {
        if let Some(one) = make(item)? {
            all.push(one)?;
        }
    }
    Ok(List::from(all))
}

/// The lists that are made of each item, one behind the other.
pub fn gathered<T, U: Drop, F: Fn(&T) -> Result<List<U>, Memory>>(
    alloc: Global,
    items: &[T],
    make: F,
) -> Result<List<U>, Memory>
    requires { F.IsAlwaysCallable make }
    ensures { IfOk result (λ l. (f : T → List U) → ((x : T) (y : List U) → FnReturnsAt F.Fn make x (Ok y) → y ≡ f x) → l ≡ flat f items.now) }
{
    let mut all = Vec::new(alloc);
    for item in items {
        let mut more = make(item)?.into_vec();
        all.append(&mut more)?;
    }
    Ok(List::from(all))
}
