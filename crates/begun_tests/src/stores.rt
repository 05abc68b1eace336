//! Stores over journals in memory, and clusters over them.

ghost use Rattle.std.specs.Prelude.{◌≡◌, ◌<◌, ◌≤◌, All, IfOk, length};
ghost use Rattle.std.specs.Option.{ForSome};
ghost use Rattle.cluster_interface.specs.Starting.{KeepsLimits};
ghost use Rattle.file_keeper.specs.Journal.{faults_of, held_by};

use cat_model::{Bytes, Entry, List, Memory};
use cluster::Cluster;
use cluster_interface::ClusterInterface;
use file_keeper::{FileKeeper, journals_keep_limits};
use server_journal::SureJournal;
use std::alloc::Global;
use store_records::{store_record, vote_record};

pub type Store = FileKeeper<SureJournal>;

pub type Servers = Cluster<Store>;

/// The journal of a server that holds this log, and has voted for server 1 in this term.
pub fn journal_of(alloc: Global, term: u64, log: &List<Entry>) -> Result<Bytes, Memory> {
    let mut bytes = vote_record(alloc, term, Some(1))?;
    let Some(record) = store_record(alloc, 1, log)? else {
        return Err(Memory);
    };
    bytes.extend(record.as_slice())?;
    Ok(bytes)
}

// The store over a journal of these bytes.
fn store_over(alloc: Global, bytes: &[u8]) -> Result<Store, Memory>
    ensures unarmed { IfOk result (λ store. store.armed ≡ 0) }
    ensures limits { IfOk result (λ store. ForSome (held_by store.bytes) KeepsLimits) }
{
    journals_keep_limits();
    Ok(FileKeeper::new(SureJournal::new(Bytes::new(alloc, bytes)?)))
}

// The servers over these stores, with an agent.
fn servers_over(alloc: Global, stores: List<Store>) -> Result<Servers, Memory>
    requires some { 0 < length stores }
    requires most { length stores ≤ 7 }
    requires unarmed { All (λ store. store.armed ≡ 0) stores }
    requires limits { All (λ store. ForSome (held_by store.bytes) KeepsLimits) stores }
{
    match <Servers as ClusterInterface>::start(alloc, stores, 1) {
        Ok(servers) => Ok(servers),
        Err(_) => Err(Memory),
    }
}

/// A server over a journal of these bytes.
pub fn one_server(alloc: Global, bytes: &[u8]) -> Result<Servers, Memory> {
    let mut stores = List::new(alloc);
    stores.push(store_over(alloc, bytes)?)?;
    servers_over(alloc, stores)
}

/// Three servers over journals of these bytes.
pub fn three_servers(
    alloc: Global,
    first: &[u8],
    second: &[u8],
    third: &[u8],
) -> Result<Servers, Memory> {
    let mut stores = List::new(alloc);
    stores.push(store_over(alloc, first)?)?;
    stores.push(store_over(alloc, second)?)?;
    stores.push(store_over(alloc, third)?)?;
    servers_over(alloc, stores)
}
