//! A cluster over what an earlier one's stores held, and one over stores that no run left.

use crate::requests::{elect, reads, setting, writes};
use crate::stores::{Servers, journal_of, one_server, three_servers};
use cat_model::{Bytes, Entry, List, Memory};
use cluster_interface::ClusterInterface;
use std::alloc::Global;
use std::test::Fail;

// A server over this journal, which leads.
fn leader(alloc: Global, journal: &[u8]) -> Result<Servers, Memory> {
    let mut servers = one_server(alloc, journal)?;
    elect(alloc, &mut servers, 1)?;
    Ok(servers)
}

// The journal that such a server leaves.
fn left_by(alloc: Global, servers: Servers) -> Result<Bytes, Memory> {
    let log = ClusterInterface::into_agreed(servers, alloc)?;
    journal_of(alloc, 1, &log)
}

// The journal of a server that has acknowledged `one` as the value of the key a, if it has.
fn left(alloc: Global) -> Result<Option<Bytes>, Memory> {
    let mut servers = leader(alloc, &[])?;
    if !writes(alloc, &mut servers, "a", b"one")? {
        return Ok(None);
    }
    Ok(Some(left_by(alloc, servers)?))
}

// Whether a server over this journal reads `one` as the value of the key a, and then what it writes itself.
fn goes_on(alloc: Global, journal: &[u8]) -> Result<bool, Memory> {
    let mut servers = leader(alloc, journal)?;
    Ok(
        reads(alloc, &mut servers, "a", b"one")?
            && writes(alloc, &mut servers, "a", b"two")?
            && reads(alloc, &mut servers, "a", b"two")?,
    )
}

#[test]
fn what_was_acknowledged_is_read_again(rt: HostRuntime) -> Result<(), Fail> {
    let alloc = rt.alloc();
    let journal = left(alloc)?;
    match journal {
        Some(journal) => assert!(rt; goes_on(alloc, journal.as_slice())?),
        None => assert!(rt; false, "it was not acknowledged"),
    }
    Ok(())
}

// The journal of a server whose log is one entry of term 1, which sets the key a, and which has voted in this term.
fn one_entry(alloc: Global, term: u64, value: &[u8]) -> Result<Bytes, Memory> {
    let mut log = List::new(alloc);
    log.push(Entry {
        term: 1,
        number: 1,
        command: setting(alloc, "a", value)?,
    })?;
    journal_of(alloc, term, &log)
}

// Three servers whose logs are not the same, in the same term.
fn disagreeing(alloc: Global) -> Result<Servers, Memory> {
    let first = one_entry(alloc, 1, b"one")?;
    let second = one_entry(alloc, 1, b"two")?;
    let third = one_entry(alloc, 7, b"three")?;
    three_servers(alloc, first.as_slice(), second.as_slice(), third.as_slice())
}

// An election, a write and a read.
fn one_round(alloc: Global, servers: &mut Servers, server: u32) -> Result<(), Memory> {
    elect(alloc, servers, server)?;
    let _ = writes(alloc, servers, "b", b"more")?;
    let _ = reads(alloc, servers, "a", b"one")?;
    Ok(())
}

#[test]
fn over_logs_that_disagree_all_calls_return(rt: HostRuntime) -> Result<(), Fail> {
    let alloc = rt.alloc();
    let mut servers = disagreeing(alloc)?;
    for round in 0..12u32 {
        one_round(alloc, &mut servers, 1 + round % 3)?;
    }
    Ok(())
}
