//! Servers over files, each for one connection.

use cat_model::{Bytes, List};
use catalog_top::status_of;
use datagram_outside::{MemPorts, PortScript};
use host_keeper::{HostKeepers, JournalFiles};
use outside::{MemSink, MemSource};
use program_runs::{MemOutside, run_in_memory};
use serve_outside::Script;
use std::alloc::Global;
use std::sync::Wait;
use std::test::Fail;
use std::thread::Threads;
use std::time;

/// How a server ended: its status, what it said to its connection, what it wrote, and what gave its port of names.
#[derive(Drop)]
pub(crate) struct Ended {
    pub(crate) status: u8,
    pub(crate) said: Vec<u8>,
    pub(crate) sink: MemSink,
    pub(crate) ports: MemPorts,
}

/// What gives no port of names.
pub(crate) fn no_ports(alloc: Global) -> Result<MemPorts, Fail> {
    let none: Vec<PortScript> = Vec::new(alloc);
    Ok(MemPorts::new(alloc, none, List::new(alloc))?)
}

/// What so many servers over these files meet, with what gives their ports of names.
pub(crate) fn over<F: JournalFiles + Drop>(
    alloc: Global,
    files: F,
    servers: u32,
    ports: MemPorts,
) -> Result<MemOutside<HostKeepers<F>>, Fail>
where
    F::J: Send + 'static,
{
    Ok(MemOutside {
        source: MemSource::new(Bytes::new(alloc, b"")?, List::new(alloc)),
        sink: MemSink::new(alloc, List::new(alloc)),
        keepers: HostKeepers::new(alloc, files, servers),
        ports,
    })
}

/// Serves one connection, which sends these bytes, as the words ask for.
pub(crate) fn served<
    R: Threads + Wait + time::Clock + Copy + Send + Sync + Drop + 'static,
    F: JournalFiles + Drop,
>(
    rt: R,
    alloc: Global,
    words: &str,
    bytes: &[u8],
    mut outside: MemOutside<HostKeepers<F>>,
) -> Result<Ended, Fail>
where
    F::J: Send + 'static,
{
    let script = Script {
        bytes: Bytes::new(alloc, bytes)?,
        most: usize::MAX,
        failing: List::new(alloc),
    };
    let connections = Vec::from_array(alloc, [script])?;
    let ran = run_in_memory(rt, alloc, words, connections, &mut outside)?;
    let mut said = Vec::new(alloc);
    for link in ran.listener.kept() {
        said.extend_from_slice(link.said())?;
    }
    let status = status_of(&ran.outcome);
    drop(ran);
    Ok(Ended {
        status,
        said,
        sink: outside.sink,
        ports: outside.ports,
    })
}
