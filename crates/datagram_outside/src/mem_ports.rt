ghost use Rattle.std.specs.Prelude.{◌≡◌, ◌↔◌, ◌⊎◌, ◌<◌, ◌≤◌, ◌∷◌, ◌++◌, [], map, vec_len, IfOk, OnErr, IsErr, IsTrue};
ghost use Rattle.std.specs.Vec.{vec_capacity};
ghost use Rattle.outside.specs.Causes.{counted, HasCause};
ghost use Rattle.outside.specs.InMemory.{is_listed as is_listed_of};
ghost use Rattle.datagram_outside.specs.Ports.{IsNew};
ghost use Rattle.datagram_outside.specs.InMemory.{told};

use crate::{Datagrams, MemPort, Packet};
use cat_model::{List, Memory};
use http_server::Log;
use outside::{Failed, is_listed};
use std::alloc::Global;

/// What a port in memory does.
#[derive(Drop)]
pub struct PortScript {
    /// The packets that it gives.
    pub packets: Vec<Packet>,
    /// The numbers of its calls that fail, counted from 1.
    pub failing: List<u64>,
}

/// What gives ports in memory, one for each script and in their order. After the last one each `bind` fails, and those
/// with the given numbers, counted from 1.
#[derive(Drop)]
pub struct MemPorts {
    alloc: Global,
    scripts: Vec<PortScript>,
    failing: List<u64>,
    calls: u64,
    faults: u64,
    // The ports that were handed back: for clauses, and for whoever looks at them later.
    closed: Log<MemPort, ()>,
    kept: Vec<MemPort>,
}

impl MemPorts {
    pub fn new(
        alloc: Global,
        scripts: Vec<PortScript>,
        failing: List<u64>,
    ) -> Result<MemPorts, Memory>
        ensures counts { IfOk result (λ d. (d.calls ≡ 0) × (d.faults ≡ 0) × (d.closed.items ≡ [])) }
        ensures scripts { IfOk result (λ d. (d.scripts ≡ scripts) × (d.failing ≡ failing)) }
        ensures room { IfOk result (λ d. (d.kept.items ≡ []) × (vec_len scripts ≤ vec_capacity d.kept)) }
    {
        let kept = Vec::with_capacity(alloc, scripts.len())?;
        Ok(MemPorts {
            alloc,
            scripts,
            failing,
            calls: 0,
            faults: 0,
            closed: Log::new(),
            kept,
        })
    }

    /// The ports that were handed back, as far as there was room: there is room for each one that was given.
    pub fn kept(&self) -> &[MemPort]
        ensures { result.now ≡ self.now.kept.items }
    {
        self.kept.as_slice()
    }
}

impl Datagrams for MemPorts {
    ghost use Rattle.std.specs.Prelude.{map};
    ghost use Rattle.datagram_outside.specs.InMemory.{told};

    type Port = MemPort;

    ghost faults = { λ d. d.faults };

    ghost closed = { λ d. map (λ p. told p.0) d.closed.items };

    fn bind(&mut self, _port: u16) -> Result<MemPort, Failed>
        ensures new { IfOk result (λ p. IsNew (told p)) }
        ensures cause { HasCause self.old.faults self.new.faults result }
        ensures closed { map (λ p. told p.0) self.new.closed.items ≡ map (λ p. told p.0) self.old.closed.items }

        // The listed calls fail, and those for which there is no script; the others follow the next one.
        ensures fails { IsErr result ↔ IsTrue (is_listed_of self.old.failing (counted self.old.calls)) ⊎ (self.old.scripts.items ≡ []) }
        ensures script { IfOk result (λ p. self.old.scripts.items ≡ record { packets = p.script; failing = p.failing } ∷ self.new.scripts.items) }
        ensures calls { (self.new.calls ≡ counted self.old.calls) × (self.new.failing ≡ self.old.failing) × (self.new.kept ≡ self.old.kept) }
    {
        self.calls = self.calls.saturating_add(1);
        if is_listed(&self.failing, self.calls) || self.scripts.is_empty() {
            self.faults = self.faults.saturating_add(1);
            return Err(Failed);
        }
        let PortScript { packets, failing } = self.scripts.remove(0);
        Ok(MemPort::new(self.alloc, packets, failing))
    }

    fn close(&mut self, port: MemPort)
        ensures closed { map (λ p. told p.0) self.new.closed.items ≡ map (λ p. told p.0) self.old.closed.items ++ told port ∷ [] }
        ensures faults { self.new.faults ≡ self.old.faults }
        ensures kept { vec_len self.old.kept < vec_capacity self.old.kept → self.new.kept.items ≡ self.old.kept.items ++ port ∷ [] }
        ensures room { vec_capacity self.new.kept ≡ vec_capacity self.old.kept }
    {
        self.closed = self.closed.and(&port, &());
        if self.kept.len() < self.kept.capacity() {
            self.kept.push_reserved(port);
        }
    }
}
