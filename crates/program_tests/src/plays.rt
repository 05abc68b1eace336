//! Runs whose source, sink or maker of stores fails at a call.

use cat_model::{Bytes, List, Memory};
use datagram_outside::MemPorts;
use outside::{MemSink, MemSource};
use program_runs::{MemOutside, Ran, run_in_memory};
use serve_outside::{MemKeepers, Script};
use std::alloc::Global;
use std::sync::Wait;
use std::thread::Threads;
use std::time;

/// The calls of the source, of the sink, and of what makes stores that fail.
#[derive(Clone, Copy)]
pub(crate) struct Failing {
    pub(crate) read: Option<u64>,
    pub(crate) write: Option<u64>,
    pub(crate) make: Option<u64>,
}

pub(crate) const NONE_FAILS: Failing = Failing {
    read: None,
    write: None,
    make: None,
};

/// How a run ended, and what it met.
#[derive(Drop)]
pub(crate) struct Played {
    pub(crate) ran: Ran,
    pub(crate) outside: MemOutside<MemKeepers>,
}

impl Played {
    pub(crate) fn bytes(&self) -> &[u8] {
        self.outside.sink.bytes()
    }
}

fn listed(alloc: Global, call: Option<u64>) -> Result<List<u64>, Memory> {
    let mut calls = List::new(alloc);
    if let Some(number) = call {
        calls.push(number)?;
    }
    Ok(calls)
}

// An outside with this script, at which these calls fail.
fn failing_outside(
    alloc: Global,
    script: Bytes,
    failing: Failing,
) -> Result<MemOutside<MemKeepers>, Memory> {
    Ok(MemOutside {
        source: MemSource::new(script, listed(alloc, failing.read)?),
        sink: MemSink::new(alloc, listed(alloc, failing.write)?),
        keepers: MemKeepers::new(alloc, listed(alloc, failing.make)?),
        ports: MemPorts::new(alloc, Vec::new(alloc), List::new(alloc))?,
    })
}

/// Runs these words over a script, and with no connection.
pub(crate) fn play<R: Threads + Wait + time::Clock + Copy + Send + Sync + Drop + 'static>(
    rt: R,
    alloc: Global,
    words: &str,
    script: Bytes,
    failing: Failing,
) -> Result<Played, Memory> {
    let mut outside = failing_outside(alloc, script, failing)?;
    let ran = run_in_memory(rt, alloc, words, Vec::new(alloc), &mut outside)?;
    Ok(Played { ran, outside })
}

/// Runs these words with these connections, and no script.
pub(crate) fn play_with<R: Threads + Wait + time::Clock + Copy + Send + Sync + Drop + 'static>(
    rt: R,
    alloc: Global,
    words: &str,
    connections: Vec<Script>,
    failing: Failing,
) -> Result<Played, Memory> {
    let mut outside = failing_outside(alloc, Bytes::new(alloc, b"")?, failing)?;
    let ran = run_in_memory(rt, alloc, words, connections, &mut outside)?;
    Ok(Played { ran, outside })
}
