ghost use Rattle.std.specs.Prelude.{◌≡◌, ◌↔◌, ◌⊎◌, ◌-◌, ◌+◌, ◌<◌, ◌≤◌, ◌^◌, ◌∷◌, ◌++◌, [], length, map, vec_len, IfOk, OnOk, OnErr, IsErr, IsTrue, MatchResult, None, Some};
ghost use Rattle.std.specs.Vec.{vec_capacity};
ghost use Rattle.outside.specs.Causes.{counted, HasCause};
ghost use Rattle.outside.specs.InMemory.{is_listed};
ghost use Rattle.serve_outside.specs.Links.{IsNew};
ghost use Rattle.serve_outside.specs.InMemory.{told};

use crate::{Listener, MemLink, Script};
use cat_model::{List, Memory};
use http_server::Log;
use outside::{Failed, is_listed};
use std::alloc::Global;

/// What gives connections in memory, one for each script and in their order. After the last one each call fails, and
/// the calls of `listen` and `accept` with the given numbers, counted from 1.
#[derive(Drop)]
pub struct MemListener {
    alloc: Global,
    scripts: Vec<Script>,
    failing: List<u64>,
    port: Option<u16>,
    calls: u64,
    faults: u64,
    given: u64,
    // The connections that were handed back: for clauses, and for whoever looks at them later.
    closed: Log<MemLink, ()>,
    kept: Vec<MemLink>,
}

impl MemListener {
    pub fn new(
        alloc: Global,
        scripts: Vec<Script>,
        failing: List<u64>,
    ) -> Result<MemListener, Memory>
        ensures given { IfOk result (λ l. (l.given ≡ 0) × (l.closed.items ≡ [])) }
        ensures calls { IfOk result (λ l. (l.calls ≡ 0) × (l.faults ≡ 0)) }
        ensures scripts { IfOk result (λ l. (l.scripts ≡ scripts) × (l.failing ≡ failing)) }
        ensures room { IfOk result (λ l. (l.kept.items ≡ []) × (vec_len scripts ≤ vec_capacity l.kept)) }
        ensures port { IfOk result (λ l. l.port ≡ None) }
    {
        let kept = Vec::with_capacity(alloc, scripts.len())?;
        Ok(MemListener {
            alloc,
            scripts,
            failing,
            port: None,
            calls: 0,
            faults: 0,
            given: 0,
            closed: Log::new(),
            kept,
        })
    }

    /// The connections that were handed back, as far as there was room: there is room for each one that was given.
    pub fn kept(&self) -> &[MemLink]
        ensures { result.now ≡ self.now.kept.items }
    {
        self.kept.as_slice()
    }

    /// The port that was asked for, once it listens.
    pub fn port(&self) -> Option<u16>
        ensures { result ≡ self.now.port }
    {
        self.port
    }

    // Counts a call that fails.
    fn fail<T>(&mut self) -> Result<T, Failed>
        ensures fails { IsErr result }
        ensures counts { self.new ≡ record self.old { faults = counted self.old.faults } }
        ensures later { self.old.faults ≤ self.new.faults }
    {
        self.faults = self.faults.saturating_add(1);
        Err(Failed)
    }

    // Counts the call, and says whether it is one of those that are to fail.
    fn is_failing(&mut self) -> bool
        ensures listed { result ≡ is_listed self.old.failing (counted self.old.calls) }
        ensures counts { self.new ≡ record self.old { calls = counted self.old.calls } }
    {
        self.calls = self.calls.saturating_add(1);
        is_listed(&self.failing, self.calls)
    }
}

impl Listener for MemListener {
    ghost use Rattle.std.specs.Prelude.{map};
    ghost use Rattle.serve_outside.specs.InMemory.{told};

    type Link = MemLink;

    ghost faults = { λ l. l.faults };

    ghost given = { λ l. l.given };

    ghost closed = { λ l. map (λ p. told p.0) l.closed.items };

    ghost listens_on = { λ l. l.port };

    fn listen(&mut self, port: u16) -> Result<(), Failed>
        ensures listens { MatchResult result (λ _. self.new.port ≡ Some port) (λ _. self.new.port ≡ self.old.port) }
        ensures cause { HasCause self.old.faults self.new.faults result }
        ensures given { self.new.given ≡ self.old.given }
        ensures closed { map (λ p. told p.0) self.new.closed.items ≡ map (λ p. told p.0) self.old.closed.items }
        ensures fails { IsErr result ↔ IsTrue (is_listed self.old.failing (counted self.old.calls)) }
        ensures rest { self.new ≡ record self.old { port = self.new.port; calls = counted self.old.calls; faults = self.new.faults } }
    {
        if self.is_failing() {
            return self.fail();
        }
        self.port = Some(port);
        Ok(())
    }

    fn accept(&mut self) -> Result<MemLink, Failed>
        ensures new { IfOk result (λ link. IsNew self.new.given (told link)) }
        ensures given { MatchResult result (λ _. self.new.given ≡ self.old.given + 1) (λ _. self.new.given ≡ self.old.given) }
        ensures cause { HasCause self.old.faults self.new.faults result }
        ensures closed { map (λ p. told p.0) self.new.closed.items ≡ map (λ p. told p.0) self.old.closed.items }
        ensures listens { self.new.port ≡ self.old.port }

        // The listed calls fail, and those for which there is no script; the others follow the next one.
        ensures listed { IsTrue (is_listed self.old.failing (counted self.old.calls)) → IsErr result }
        ensures fails { OnErr result (IsTrue (is_listed self.old.failing (counted self.old.calls)) ⊎ (self.old.scripts.items ≡ []) ⊎ (self.old.given ≡ 2 ^ 64 - 1)) }
        ensures script { IfOk result (λ link. self.old.scripts.items ≡ link.script ∷ self.new.scripts.items) }
        ensures calls { (self.new.calls ≡ counted self.old.calls) × (self.new.failing ≡ self.old.failing) × (self.new.kept ≡ self.old.kept) }
    {
        if self.is_failing() || self.scripts.is_empty() || self.given == u64::MAX {
            return self.fail();
        }
        let script = self.scripts.remove(0);
        self.given += 1;
        Ok(MemLink::new(self.alloc, script, self.given))
    }

    fn stop(&mut self)
        ensures { self.new ≡ self.old }
    {}

    fn close(&mut self, link: MemLink)
        ensures closed { map (λ p. told p.0) self.new.closed.items ≡ map (λ p. told p.0) self.old.closed.items ++ told link ∷ [] }
        ensures given { self.new.given ≡ self.old.given }
        ensures faults { self.new.faults ≡ self.old.faults }
        ensures listens { self.new.port ≡ self.old.port }
        ensures kept { vec_len self.old.kept < vec_capacity self.old.kept → self.new.kept.items ≡ self.old.kept.items ++ link ∷ [] }
        ensures room { vec_capacity self.new.kept ≡ vec_capacity self.old.kept }
    {
        self.closed = self.closed.and(&link, &());
        if self.kept.len() < self.kept.capacity() {
            self.kept.push_reserved(link);
        }
    }
}
