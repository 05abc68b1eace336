//! Durable stores in memory.

ghost use Rattle.std.specs.Prelude.{◌≡◌, All, IfOk, length};
ghost use Rattle.outside.specs.KeepersInMemory.{empty_store};

use cat_model::{List, Memory};
use outside::MemKeeper;
use std::alloc::Global;

/// So many stores in memory that hold nothing, and of which no call is to fail.
pub fn empty_stores(alloc: Global, count: u32) -> Result<List<MemKeeper>, Memory>
    ensures count { IfOk result (λ stores. length stores ≡ count) }
    ensures empty { IfOk result (All (λ store. store ≡ empty_store)) }
{
    let mut stores = List::new(alloc);
    let mut made = 0;
    while made < count {
        stores.push(MemKeeper::new(alloc, List::new(alloc)))?;
        made += 1;
    }
    Ok(stores)
}
