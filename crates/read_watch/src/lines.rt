//! Requests that wait in line at servers.

ghost use Rattle.std.specs.Prelude.{◌≡◌, ◌≢◌, ◌+◌, ◌≤◌, ◌⊎◌, ℕ, [], ◌∷◌, Contains, IfNone, IfOk, IfSome, replicate, true};
ghost use Rattle.std.specs.List.{AllByRecursion as Each};
ghost use Rattle.read_watch.specs.Lines.{IsFrom, Waiter, WaitsIn, line_of};

use cat_model::Memory;
use std::alloc::Global;
use std::collections::BTreeSet;
use std::marker::Model;

/// Requests that wait at a server, each for a place, which has a term and a number. They ascend by their places, and at
/// one place by their own numbers.
#[derive(Drop)]
pub struct WaitingLine {
    entries: BTreeSet<(u64, u64, u64)>,
}

impl Model for WaitingLine {
    ghost use Rattle.read_watch.specs.Lines.{Line};

    ghost Value = { Line };

    ghost view = { λ l. l.entries.keys };
}

impl WaitingLine {
    /// Nobody waits.
    pub fn new(alloc: Global) -> WaitingLine
        ensures { result ≡ [] }
    {
        WaitingLine {
            entries: BTreeSet::new(alloc),
        }
    }

    /// A request waits for a place from now on, if there is memory, and tells whether it does.
    pub fn add(&mut self, term: u64, number: u64, request: u64) -> bool
        ensures there { result ≡ true → Contains self.new (term, number, request) }
        ensures kept { (e : Waiter) → Contains self.old e → Contains self.new e }
        ensures alone { (e : Waiter) → Contains self.new e → Contains self.old e ⊎ (e ≡ (term, number, request)) }
    {
        self.entries.insert((term, number, request)).is_ok()
    }

    /// The first place for which one waits.
    pub fn first(&self) -> Option<(u64, u64)>
        ensures none { IfNone result (self.now ≡ []) }
        ensures some { IfSome result (λ place. Each (IsFrom place) self.now) }
        ensures there { IfSome result (λ place. (n : ℕ) × Contains self.now (place.0, place.1, n)) }
    {
        match self.entries.first() {
            Some((term, number, _)) => Some((*term, *number)),
            None => None,
        }
    }

    /// The one that waits for the first place waits no more, and is given.
    pub fn take_first(&mut self) -> Option<u64>
        ensures none { IfNone result ((self.old ≡ []) × (self.new ≡ self.old)) }
        ensures some { IfSome result (λ request. (term : ℕ) × (number : ℕ) × (self.old ≡ (term, number, request) ∷ self.new)) }
    {
        match self.entries.pop_first() {
            Some((_, _, request)) => Some(request),
            None => None,
        }
    }
}

/// The lines of all servers, which are numbered from 1.
#[derive(Drop)]
pub struct Lines {
    servers: Vec<WaitingLine>,
}

impl Model for Lines {
    ghost use Rattle.std.specs.Prelude.{List};
    ghost use Rattle.read_watch.specs.Lines.{Line};

    ghost Value = { List Line };

    ghost view = { λ l. l.servers.items };
}

/// The place of a server among all.
fn place(server: u32) -> usize
    requires { 1 ≤ server }
    ensures { result + 1 ≡ server }
{
    server as usize - 1
}

impl Lines {
    /// Nobody waits at so many servers.
    pub fn new(alloc: Global, servers: u32) -> Result<Lines, Memory>
        ensures { IfOk result (λ l. l ≡ replicate servers []) }
    {
        let mut lines = Vec::new(alloc);
        while lines.len() < servers as usize {
            lines.push(WaitingLine::new(alloc))?;
        }
        Ok(Lines { servers: lines })
    }

    /// A request waits at a server for a place, if there is memory, and tells whether it does.
    pub fn add(&mut self, server: u32, term: u64, number: u64, request: u64) -> bool
        requires { 1 ≤ server }
        ensures there { result ≡ true → WaitsIn server request term number self.new }
        ensures kept { (i n t k : ℕ) → WaitsIn i n t k self.old → WaitsIn i n t k self.new }
        ensures alone { (i n t k : ℕ) → WaitsIn i n t k self.new → WaitsIn i n t k self.old ⊎ ((i ≡ server) × (t ≡ term) × (k ≡ number) × (n ≡ request)) }
    {
        let at = place(server);
        if at < self.servers.len() {
            self.servers[at].add(term, number, request)
        } else {
            false
        }
    }

    /// The first place for which one waits at a server.
    pub fn first(&self, server: u32) -> Option<(u64, u64)>
        requires { 1 ≤ server }
        ensures none { IfNone result (line_of self.now server ≡ []) }
        ensures some { IfSome result (λ at. Each (IsFrom at) (line_of self.now server)) }
        ensures there { IfSome result (λ at. (n : ℕ) × WaitsIn server n at.0 at.1 self.now) }
    {
        let at = place(server);
        if at < self.servers.len() {
            self.servers[at].first()
        } else {
            None
        }
    }

    /// The one that waits at a server for the first place waits no more, and is given.
    pub fn take_first(&mut self, server: u32) -> Option<u64>
        requires { 1 ≤ server }
        ensures none { IfNone result ((line_of self.old server ≡ []) × (self.new ≡ self.old)) }
        ensures kept { IfSome result (λ request. (i n t k : ℕ) → WaitsIn i n t k self.old → (n ≡ request) ⊎ WaitsIn i n t k self.new) }
        ensures some { IfSome result (λ request. (t : ℕ) × (k : ℕ) × (line_of self.old server ≡ (t, k, request) ∷ line_of self.new server)) }
        ensures others { (i : ℕ) → i ≢ server → line_of self.new i ≡ line_of self.old i }
    {
        let at = place(server);
        if at < self.servers.len() {
            self.servers[at].take_first()
        } else {
            None
        }
    }
}
