//! Runs over an outside in memory.

use cat_model::{List, Memory};
use catalog_top::{Machine, Outcome, run};
use datagram_outside::MemPorts;
use outside::{MemSink, MemSource};
use serve_outside::{Bells, CountWords, Keepers, MemListener, MemSpawner, Script, SetClock};
use std::alloc::{AllocError, Global};
use std::sync::Wait;
use std::thread::Threads;
use std::time;

/// What a run reads and writes, what makes its stores, and what gives its ports for questions of names.
#[derive(Drop)]
pub struct MemOutside<K: Drop> {
    /// The script.
    pub source: MemSource,
    /// What the run wrote.
    pub sink: MemSink,
    /// What makes the stores.
    pub keepers: K,
    /// What gives the ports.
    pub ports: MemPorts,
}

/// How a run ended, and its connections.
#[derive(Drop)]
pub struct Ran {
    /// How it ended.
    pub outcome: Outcome,
    /// What gave the connections, and has those that were handed back.
    pub listener: MemListener,
}

// The words of a command line, which a blank parts.
fn words_of(alloc: Global, words: &str) -> Result<Vec<&str>, AllocError> {
    words.split(' ').collect(alloc)
}

// The machine, with a clock that stands still.
fn machine<R: Copy + Drop>(rt: R, alloc: Global) -> Result<Machine<R, SetClock, Bells<R>>, Memory> {
    Ok(Machine {
        rt,
        alloc,
        clock: SetClock { ms: 0 },
        gate: Bells::new(rt, alloc)?,
    })
}

/// Runs the program by these words, which a blank parts, over this outside and these connections. Its clock stands still,
/// and no job is refused.
pub fn run_in_memory<
    R: Threads + Wait + time::Clock + Copy + Send + Sync + Drop + 'static,
    K: Keepers + Drop,
>(
    rt: R,
    alloc: Global,
    words: &str,
    connections: Vec<Script>,
    outside: &mut MemOutside<K>,
) -> Result<Ran, Memory> {
    let mut listener = MemListener::new(alloc, connections, List::new(alloc))?;
    let words = words_of(alloc, words)?;
    let outcome = run(
        machine(rt, alloc)?,
        &words,
        &mut outside.source,
        &mut outside.sink,
        &mut listener,
        &mut CountWords::new(),
        &mut MemSpawner::new(List::new(alloc)),
        &mut outside.keepers,
        &mut outside.ports,
    );
    Ok(Ran { outcome, listener })
}
