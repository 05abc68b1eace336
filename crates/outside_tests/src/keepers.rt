//! What makes durable stores.

use cat_model::{List, Memory};
use outside::{KeepFail, Keeper};
use serve_outside::{Keepers, MadeStore, MemKeepers, SureKeepers};
use std::alloc::Global;
use std::test::Fail;

// The term of a store, and the length of its log.
fn loaded(alloc: Global, store: &mut impl Keeper) -> Result<(u64, usize), Memory> {
    match store.load(alloc) {
        Ok(kept) => {
            let found = (kept.term, kept.log.len());
            drop(kept);
            Ok(found)
        }
        Err(_) => Err(Memory),
    }
}

// How the making of a store went: it failed, or what was loaded from the store.
fn made<K: Keepers>(
    alloc: Global,
    keepers: &mut K,
    server: u32,
) -> Result<Option<(u64, usize)>, Memory> {
    match keepers.make(alloc, &None, server) {
        Ok(mut store) => {
            let found = loaded(alloc, &mut store);
            keepers.close(server, store);
            Ok(Some(found?))
        }
        Err(KeepFail::Failed) => Ok(None),
        Err(KeepFail::Memory) => Err(Memory),
    }
}

// Makes stores in memory, and fails at its second call.
fn failing_keepers(alloc: Global) -> Result<MemKeepers, Memory> {
    let mut second = List::new(alloc);
    second.push(2)?;
    Ok(MemKeepers::new(alloc, second))
}

// Whether these are the stores of servers 1 and 7.
fn are_of_one_and_seven(made: &[MadeStore]) -> bool {
    match made {
        [first, second] => first.server == 1 && second.server == 7,
        _ => false,
    }
}

// Whether the first store and the third are made, empty, and they alone.
fn two_are_made(alloc: Global, keepers: &mut MemKeepers) -> Result<bool, Memory> {
    let first = made(alloc, keepers, 1)?;
    let second = made(alloc, keepers, 2)?;
    let third = made(alloc, keepers, 7)?;
    Ok(
        first == Some((0, 0))
            && second.is_none()
            && third == Some((0, 0))
            && are_of_one_and_seven(keepers.made()),
    )
}

#[test]
fn stores_in_memory_are_made_empty(rt: HostRuntime) -> Result<(), Fail> {
    let alloc = rt.alloc();
    let mut keepers = failing_keepers(alloc)?;
    let are_made = two_are_made(alloc, &mut keepers);
    drop(keepers);
    assert!(rt; are_made?);
    Ok(())
}

#[test]
fn a_store_that_never_fails_is_made_empty(rt: HostRuntime) {
    let found = made(rt.alloc(), &mut SureKeepers::new(), 1);
    assert!(rt; found == Ok(Some((0, 0))));
}
