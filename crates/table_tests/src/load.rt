//! A load of many keys, which only a table whose calls cost a logarithm gets through in a test's time.

use cat_model::{Bytes, KvRow, Memory, Text};
use kv_table::KvTable;
use std::alloc::Global;
use std::test::Fail;

/// How many keys there are. They are set in the order `k0`, `k1`, `k2` and so on, which is not their own.
const KEYS: u64 = 100_000;

// Sets a key at a position. Its row is lost where memory is out.
fn put(alloc: Global, table: &mut KvTable, key: &str, position: u64) -> Result<(), Memory> {
    let row = KvRow {
        key: Text::new(alloc, key)?,
        value: Bytes::new(alloc, b"v")?,
        flags: 0,
        session: None,
        lock_index: 0,
        create: position,
        modify: position,
    };
    table.set(row).map_err(|(_, memory)| memory)
}

// The table after each key was set at its number and kept.
fn loaded(alloc: Global) -> Result<KvTable, Memory> {
    let mut table = KvTable::new(alloc)?;
    for number in 0..KEYS {
        let key = format!(in alloc; "k{number}")?;
        put(alloc, &mut table, key.as_str(), number)?;
        table.keep();
    }
    Ok(table)
}

// How many of the keys are found with their number.
fn found(alloc: Global, table: &KvTable) -> Result<u64, Memory> {
    let mut count = 0_u64;
    for number in 0..KEYS {
        let key = format!(in alloc; "k{number}")?;
        if table.get(key.as_str()).is_some_and(|r| r.modify == number) {
            count = count.saturating_add(1);
        }
    }
    Ok(count)
}

// Removes each key, with a tombstone behind all the writes, and goes back after each.
fn removed_and_undone(alloc: Global, table: &mut KvTable) -> Result<u64, Memory> {
    let mut count = 0_u64;
    for number in 0..KEYS {
        let key = format!(in alloc; "k{number}")?;
        let there = table.remove(key.as_str())?;
        table.tombstone(Text::new(alloc, key.as_str())?, KEYS)?;
        if there && table.index_key(key.as_str()) == KEYS {
            count = count.saturating_add(1);
        }
        table.undo();
    }
    Ok(count)
}

// How many keys are found, how many are removed, and how many are found again after each removal was undone.
fn counts(alloc: Global) -> Result<[u64; 3], Memory> {
    let mut table = loaded(alloc)?;
    let first = found(alloc, &table)?;
    let removed = removed_and_undone(alloc, &mut table)?;
    Ok([first, removed, found(alloc, &table)?])
}

#[test]
fn many_keys_are_found_and_come_back(rt: HostRuntime) -> Result<(), Fail> {
    assert_eq!(rt; counts(rt.alloc())?, [KEYS, KEYS, KEYS]);
    Ok(())
}
