//! Items of a list that others take the place of.

ghost use Rattle.std.specs.Prelude.{◌≡◌, Ok, Option, IfOk, map, set};
ghost use Rattle.std.specs.Fn.{FnReturnsAt};
ghost use Rattle.agent_state.specs.Replacing.{all_replaced, other_or};

use cat_model::Memory;
use std::alloc::Global;

/// What is made of those items of which something is, each with the place that it takes.
pub(crate) fn replacements<T: Drop, F: Fn(&T) -> Result<Option<T>, Memory>>(
    alloc: Global,
    items: &[T],
    make: F,
) -> Result<Vec<(usize, T)>, Memory>
    requires { F.IsAlwaysCallable make }
    ensures { IfOk result (λ v. (f : T → T) → ((x : T) (y : Option T) → FnReturnsAt F.Fn make x (Ok y) → other_or x y ≡ f x) → all_replaced v.items items.now ≡ map f items.now) }
{
    let mut all = Vec::new(alloc);
    for (at, item) in items.iter().enumerate() {
        if let Some(other) = make(item)? {
            all.push((at, other))?;
        }
    }
    Ok(all)
}

fn replace<T: Drop>(items: &mut Vec<T>, at: usize, new: T)
    ensures { items.new.items ≡ set items.old.items at new }
{
    if at < items.len() {
        items[at] = new;
    }
}

/// Puts these at their places, which takes no memory.
pub(crate) fn replace_all<T: Drop>(items: &mut Vec<T>, new: Vec<(usize, T)>)
    ensures { items.new.items ≡ all_replaced new.items items.old.items }
{
    for (at, item) in new {
        replace(items, at, item);
    }
}
