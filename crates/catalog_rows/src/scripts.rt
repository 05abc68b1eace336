use anyhow::Result;
use cat_model::{Bytes, List};
use catalog_top::{Machine, run, status_of};
use datagram_outside::MemPorts;
use outside::{SureSink, SureSource};
use serve_outside::{Bells, CountWords, MemListener, MemSpawner, SetClock, SureKeepers};
use std::alloc::Global;
use std::sync::Wait;
use std::thread::Threads;
use std::time;

/// How a script ended, and what it wrote.
#[derive(Drop)]
pub struct Played {
    pub status: u8,
    sink: SureSink,
}

impl Played {
    /// What was written.
    pub fn bytes(&self) -> &[u8] {
        self.sink.bytes()
    }
}

/// Plays the script from a source and into a sink in memory.
pub fn play<R: Threads + Wait + time::Clock + Copy + Send + Sync + Drop + 'static>(
    rt: R,
    alloc: Global,
    script: Vec<u8>,
) -> Result<Played> {
    let mut listener = MemListener::new(alloc, Vec::new(alloc), List::new(alloc))?;
    let mut ports = MemPorts::new(alloc, Vec::new(alloc), List::new(alloc))?;
    let mut sink = SureSink::new(alloc);
    let outcome = run(
        machine(rt, alloc)?,
        &["script"],
        &mut SureSource::new(Bytes::from(script)),
        &mut sink,
        &mut listener,
        &mut CountWords::new(),
        &mut MemSpawner::new(List::new(alloc)),
        &mut SureKeepers::new(),
        &mut ports,
    );
    let status = status_of(&outcome);
    drop(outcome);
    Ok(Played { status, sink })
}

/// The machine, with a clock that stands still.
pub fn machine<R: Copy + Drop>(rt: R, alloc: Global) -> Result<Machine<R, SetClock, Bells<R>>> {
    Ok(Machine {
        rt,
        alloc,
        clock: SetClock { ms: 0 },
        gate: Bells::new(rt, alloc)?,
    })
}
