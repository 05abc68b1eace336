//! The requests of all servers.

ghost use Rattle.std.specs.Prelude.{◌≡◌, ◌≢◌, ◌+◌, ◌<◌, ◌≤◌, ◌⊎◌, ℕ, List as Items, [], ◌∷◌, true, false, length, IfNone, IfOk, IfSome, Contains};
ghost use Rattle.std.specs.List.{AllByRecursion as Each};
ghost use Rattle.cat_model.specs.Reach.{is_on};
ghost use Rattle.cat_model.specs.declared.query.Chan.{Chan as Channel};

use crate::awake::AwakeNumbers;
use crate::lines::Lines;
use crate::sleepers::SleepingReads;
use cat_model::{Chan, List, Memory};
use std::alloc::Global;
use std::marker::Model;

/// Which requests are awake, so that something may be due of them, and at each server, numbered from 1, which reads
/// sleep and which requests wait in line. Where memory ran out, any request may be awake.
#[derive(Drop)]
pub struct Watch {
    servers: Vec<SleepingReads>,
    positions: Lines,
    rounds: Lines,
    awake: AwakeNumbers,
    all: bool,
}

impl Model for Watch {
    ghost use Rattle.read_watch.specs.Watch as spec;

    ghost Value = { spec.Watch };

    ghost view = { λ w. record { servers = w.servers.items; positions = w.positions; rounds = w.rounds; awake = w.awake; all = w.all } };
}

/// The place of a server among all.
fn place(server: u32) -> usize
    requires { 1 ≤ server }
    ensures { result + 1 ≡ server }
{
    server as usize - 1
}

impl Watch {
    ghost use Rattle.read_watch.specs.Lines.{IsFrom, Waiter, WaitsIn, line_of};
    ghost use Rattle.read_watch.specs.Watch.{hit_by, nobody, sleepers_of, without, AwaitsPosition, AwaitsRound, IsServer, IsAwake, IsOver, SameLines, Sleeps};

    /// No request at so many servers.
    pub fn new(alloc: Global, servers: u32) -> Result<Watch, Memory>
        ensures { IfOk result (λ w. w ≡ nobody servers) }
    {
        let mut sleeping = Vec::new(alloc);
        while sleeping.len() < servers as usize {
            sleeping.push(SleepingReads::new(alloc)?)?;
        }
        Ok(Watch {
            servers: sleeping,
            positions: Lines::new(alloc, servers)?,
            rounds: Lines::new(alloc, servers)?,
            awake: AwakeNumbers::new(alloc),
            all: false,
        })
    }

    /// Whether memory ran out, so that any request may be awake.
    pub fn is_all(&self) -> bool
        ensures { result ≡ self.now.all }
    {
        self.all
    }

    /// The numbers of the requests that are awake, where memory did not run out.
    pub fn awake(&self) -> &[u64]
        ensures { result.now ≡ self.now.awake }
    {
        self.awake.as_slice()
    }

    /// A request wakes. It costs a logarithm of how many are awake, and what it takes to make room among them.
    pub fn wake(&mut self, number: u64)
        ensures awake { IsAwake number self.new }
        ensures alone { (n : ℕ) → Contains self.new.awake n → Contains self.old.awake n ⊎ (n ≡ number) }
        ensures kept { (n : ℕ) → IsAwake n self.old → IsAwake n self.new }
        ensures servers { self.new.servers ≡ self.old.servers }
        ensures lines { SameLines self.old self.new }
    {
        if !self.awake.add(number) {
            self.all = true;
        }
    }

    fn wake_each(&mut self, numbers: &[u64])
        ensures awake { (n : ℕ) → Contains numbers.now n → IsAwake n self.new }
        ensures alone { (n : ℕ) → Contains self.new.awake n → Contains self.old.awake n ⊎ Contains numbers.now n }
        ensures kept { (n : ℕ) → IsAwake n self.old → IsAwake n self.new }
        ensures servers { self.new.servers ≡ self.old.servers }
        ensures lines { SameLines self.old self.new }
    {
        for number in numbers {
            self.wake(*number);
        }
    }

    /// Channels were fired at a server. Those of its reads wake that hang on a channel which a fired one reaches.
    pub fn fire(&mut self, alloc: Global, server: u32, fired: &List<Chan>)
        requires { IsServer server self.old }
        ensures kept { (n : ℕ) → IsAwake n self.old → IsAwake n self.new }
        ensures sleepers { (i n : ℕ) (chans : Items Channel) (deadline : ℕ) → Sleeps i n chans deadline self.old → IsAwake n self.new ⊎ (Sleeps i n chans deadline self.new × (i ≡ server → is_on fired.now chans ≡ false)) }
        ensures alone { (n : ℕ) → Contains self.new.awake n → Contains self.old.awake n ⊎ Contains (hit_by fired.now (sleepers_of self.old.servers server).asleep) n }
        ensures servers { length self.new.servers ≡ length self.old.servers }
        ensures lines { SameLines self.old self.new }
    {
        match self.servers[place(server)].take_fired(alloc, fired) {
            Ok(hit) => self.wake_each(hit.as_slice()),
            Err(_) => self.all = true,
        }
    }

    /// A server's clock shows this time. Those of its reads wake whose deadline has come. It looks only at the timers of
    /// the milliseconds that passed since the last call, at 65,536 of them at most.
    pub fn wake_over(&mut self, alloc: Global, server: u32, clock: u64)
        requires { IsServer server self.old }
        ensures kept { (n : ℕ) → IsAwake n self.old → IsAwake n self.new }
        ensures sleepers { (i n : ℕ) (chans : Items Channel) (deadline : ℕ) → Sleeps i n chans deadline self.old → IsAwake n self.new ⊎ (Sleeps i n chans deadline self.new × (i ≡ server → clock < deadline)) }
        ensures alone { (n : ℕ) → Contains self.new.awake n → Contains self.old.awake n ⊎ IsOver n clock (sleepers_of self.old.servers server).timers }
        ensures servers { length self.new.servers ≡ length self.old.servers }
        ensures lines { SameLines self.old self.new }
    {
        match self.servers[place(server)].take_over(alloc, clock) {
            Ok(over) => self.wake_each(over.as_slice()),
            Err(_) => self.all = true,
        }
    }

    /// A request that is awake, a read that waits, sleeps at a server until one of these channels is fired there or its
    /// deadline comes. Where there is no memory, or as many sleep there as may, it is awake.
    pub fn sleep(
        &mut self,
        alloc: Global,
        server: u32,
        number: u64,
        chans: &List<Chan>,
        deadline: u64,
    )
        requires server { IsServer server self.old }
        requires two { length chans.now ≤ 2 }
        ensures rests { IsAwake number self.new ⊎ Sleeps server number chans.now deadline self.new }
        ensures only { (cs : Items Channel) (d : ℕ) → Sleeps server number cs d self.new → (cs ≡ chans.now) × (d ≡ deadline) × (self.new.awake ≡ without number self.old.awake) }
        ensures alone { (n : ℕ) → n ≢ number → Contains self.new.awake n → Contains self.old.awake n }
        ensures kept { (n : ℕ) → n ≢ number → IsAwake n self.old → IsAwake n self.new }
        ensures sleepers { (i n : ℕ) (cs : Items Channel) (d : ℕ) → n ≢ number → Sleeps i n cs d self.old → Sleeps i n cs d self.new }
        ensures servers { length self.new.servers ≡ length self.old.servers }
        ensures lines { SameLines self.old self.new }
    {
        let sleeps = self.servers[place(server)].rest(alloc, number, chans, deadline);
        if sleeps {
            self.awake.take(number);
        } else {
            self.wake(number);
        }
    }

    /// A request that is awake waits at a server for a position of its log. Where there is no memory, it is awake.
    pub fn await_position(&mut self, server: u32, number: u64, index: u64)
        requires { IsServer server self.old }
        ensures rests { IsAwake number self.new ⊎ AwaitsPosition server number index self.new }
        ensures alone { (n : ℕ) → n ≢ number → Contains self.new.awake n → Contains self.old.awake n }
        ensures kept { (n : ℕ) → n ≢ number → IsAwake n self.old → IsAwake n self.new }
        ensures positions { (i n at : ℕ) → AwaitsPosition i n at self.old → AwaitsPosition i n at self.new }
        ensures rounds { self.new.rounds ≡ self.old.rounds }
        ensures servers { self.new.servers ≡ self.old.servers }
    {
        if self.positions.add(server, 0, index, number) {
            self.awake.take(number);
        } else {
            self.wake(number);
        }
    }

    /// A request that is awake waits at a server for a round of acknowledgements, which has this number in its term.
    /// Where there is no memory, it is awake.
    pub fn await_round(&mut self, server: u32, number: u64, term: u64, round: u64)
        requires { IsServer server self.old }
        ensures rests { IsAwake number self.new ⊎ AwaitsRound server number term round self.new }
        ensures alone { (n : ℕ) → n ≢ number → Contains self.new.awake n → Contains self.old.awake n }
        ensures kept { (n : ℕ) → n ≢ number → IsAwake n self.old → IsAwake n self.new }
        ensures positions { self.new.positions ≡ self.old.positions }
        ensures rounds { (i n t k : ℕ) → AwaitsRound i n t k self.old → AwaitsRound i n t k self.new }
        ensures servers { self.new.servers ≡ self.old.servers }
    {
        if self.rounds.add(server, term, round, number) {
            self.awake.take(number);
        } else {
            self.wake(number);
        }
    }

    // One waits for this position or an earlier one.
    fn is_reached(&self, server: u32, position: u64) -> bool
        requires { IsServer server self.now }
        ensures later { result ≡ false → (n at : ℕ) → AwaitsPosition server n at self.now → position < at }
        ensures there { result ≡ true → (n : ℕ) × (term : ℕ) × (at : ℕ) × WaitsIn server n term at self.now.positions × (at ≤ position) }
    {
        match self.positions.first(server) {
            Some((_, first)) => first <= position,
            None => false,
        }
    }

    // The first that waits for a position wakes, if one does, and tells whether one did.
    fn wake_first_position(&mut self, server: u32) -> bool
        requires { IsServer server self.old }
        ensures none { result ≡ false → (line_of self.old.positions server ≡ []) × (self.new ≡ self.old) }
        ensures first { result ≡ true → (e : Waiter) × (line_of self.old.positions server ≡ e ∷ line_of self.new.positions server) }
        ensures kept { (n : ℕ) → IsAwake n self.old → IsAwake n self.new }
        ensures positions { (i n at : ℕ) → AwaitsPosition i n at self.old → IsAwake n self.new ⊎ AwaitsPosition i n at self.new }
        ensures rounds { self.new.rounds ≡ self.old.rounds }
        ensures servers { self.new.servers ≡ self.old.servers }
    {
        match self.positions.take_first(server) {
            Some(number) => {
                self.wake(number);
                true
            }
            None => false,
        }
    }

    /// A server's log is applied up to this position. Those wake that wait there for it or for an earlier one.
    pub fn wake_reached(&mut self, server: u32, position: u64)
        requires { IsServer server self.old }
        ensures kept { (n : ℕ) → IsAwake n self.old → IsAwake n self.new }
        ensures positions { (i n at : ℕ) → AwaitsPosition i n at self.old → IsAwake n self.new ⊎ (AwaitsPosition i n at self.new × (i ≡ server → position < at)) }
        ensures rounds { self.new.rounds ≡ self.old.rounds }
        ensures servers { self.new.servers ≡ self.old.servers }
    {
        while self.is_reached(server, position) {
            self.wake_first_position(server);
        }
    }

    /// The first round for which a request waits at a server: its term, and its number there.
    pub fn first_round(&self, server: u32) -> Option<(u64, u64)>
        requires { IsServer server self.now }
        ensures none { IfNone result (line_of self.now.rounds server ≡ []) }
        ensures some { IfSome result (λ round. Each (IsFrom round) (line_of self.now.rounds server)) }
        ensures there { IfSome result (λ round. (n : ℕ) × AwaitsRound server n round.0 round.1 self.now) }
    {
        self.rounds.first(server)
    }

    /// The first that waits at a server for a round wakes, if one does, and tells whether one did.
    pub fn wake_first_round(&mut self, server: u32) -> bool
        requires { IsServer server self.old }
        ensures none { result ≡ false → (line_of self.old.rounds server ≡ []) × (self.new ≡ self.old) }
        ensures first { result ≡ true → (e : Waiter) × (line_of self.old.rounds server ≡ e ∷ line_of self.new.rounds server) }
        ensures kept { (n : ℕ) → IsAwake n self.old → IsAwake n self.new }
        ensures positions { self.new.positions ≡ self.old.positions }
        ensures rounds { (i n t k : ℕ) → AwaitsRound i n t k self.old → IsAwake n self.new ⊎ AwaitsRound i n t k self.new }
        ensures servers { self.new.servers ≡ self.old.servers }
    {
        match self.rounds.take_first(server) {
            Some(number) => {
                self.wake(number);
                true
            }
            None => false,
        }
    }

    // One that sleeps at a server wakes, if one does, and tells whether one did.
    fn wake_sleeper(&mut self, server: u32) -> bool
        requires { IsServer server self.old }
        ensures none { result ≡ false → ((sleepers_of self.old.servers server).asleep ≡ []) × (self.new ≡ self.old) }
        ensures less { result ≡ true → length (sleepers_of self.new.servers server).asleep < length (sleepers_of self.old.servers server).asleep }
        ensures kept { (n : ℕ) → IsAwake n self.old → IsAwake n self.new }
        ensures sleepers { (i n : ℕ) (chans : Items Channel) (deadline : ℕ) → Sleeps i n chans deadline self.old → IsAwake n self.new ⊎ Sleeps i n chans deadline self.new }
        ensures servers { length self.new.servers ≡ length self.old.servers }
        ensures lines { SameLines self.old self.new }
    {
        match self.servers[place(server)].any() {
            Some(number) => {
                self.servers[place(server)].forget(number);
                self.wake(number);
                true
            }
            None => false,
        }
    }

    // All wake that sleep at a server.
    fn wake_sleepers(&mut self, server: u32)
        requires { IsServer server self.old }
        ensures kept { (n : ℕ) → IsAwake n self.old → IsAwake n self.new }
        ensures sleepers { (i n : ℕ) (chans : Items Channel) (deadline : ℕ) → Sleeps i n chans deadline self.old → IsAwake n self.new ⊎ (Sleeps i n chans deadline self.new × (i ≢ server)) }
        ensures servers { length self.new.servers ≡ length self.old.servers }
        ensures lines { SameLines self.old self.new }
    {
        while self.wake_sleeper(server) {}
    }

    // All wake that wait at a server for a position.
    fn wake_positions(&mut self, server: u32)
        requires { IsServer server self.old }
        ensures kept { (n : ℕ) → IsAwake n self.old → IsAwake n self.new }
        ensures positions { (i n at : ℕ) → AwaitsPosition i n at self.old → IsAwake n self.new ⊎ (AwaitsPosition i n at self.new × (i ≢ server)) }
        ensures rounds { self.new.rounds ≡ self.old.rounds }
        ensures servers { self.new.servers ≡ self.old.servers }
    {
        while self.wake_first_position(server) {}
    }

    // All wake that wait at a server for a round.
    fn wake_rounds(&mut self, server: u32)
        requires { IsServer server self.old }
        ensures kept { (n : ℕ) → IsAwake n self.old → IsAwake n self.new }
        ensures positions { self.new.positions ≡ self.old.positions }
        ensures rounds { (i n t k : ℕ) → AwaitsRound i n t k self.old → IsAwake n self.new ⊎ (AwaitsRound i n t k self.new × (i ≢ server)) }
        ensures servers { self.new.servers ≡ self.old.servers }
    {
        while self.wake_first_round(server) {}
    }

    /// All wake that sleep or wait in line at a server, since it has halted or restarts. It costs no more than they are.
    pub fn rouse(&mut self, server: u32)
        requires { IsServer server self.old }
        ensures kept { (n : ℕ) → IsAwake n self.old → IsAwake n self.new }
        ensures sleepers { (i n : ℕ) (chans : Items Channel) (deadline : ℕ) → Sleeps i n chans deadline self.old → IsAwake n self.new ⊎ (Sleeps i n chans deadline self.new × (i ≢ server)) }
        ensures positions { (i n at : ℕ) → AwaitsPosition i n at self.old → IsAwake n self.new ⊎ (AwaitsPosition i n at self.new × (i ≢ server)) }
        ensures rounds { (i n t k : ℕ) → AwaitsRound i n t k self.old → IsAwake n self.new ⊎ (AwaitsRound i n t k self.new × (i ≢ server)) }
        ensures servers { length self.new.servers ≡ length self.old.servers }
    {
        self.wake_sleepers(server);
        self.wake_positions(server);
        self.wake_rounds(server);
    }

    /// A request is awake, if there is memory for it, and tells whether it is.
    pub fn add(&mut self, number: u64) -> bool
        ensures there { result ≡ true → Contains self.new.awake number }
        ensures kept { (n : ℕ) → Contains self.old.awake n → Contains self.new.awake n }
        ensures all { self.new.all ≡ self.old.all }
        ensures servers { self.new.servers ≡ self.old.servers }
        ensures lines { SameLines self.old self.new }
    {
        self.awake.add(number)
    }

    /// From now on only those that were added are awake, though memory ran out before.
    pub fn trust(&mut self)
        ensures { self.new ≡ record self.old { all = false } }
    {
        self.all = false;
    }

    /// A request of a server is neither awake nor asleep any more. It takes no memory, and costs a logarithm of how many
    /// are awake, beside what it takes to close the gap among them.
    pub fn forget(&mut self, server: u32, number: u64)
        requires { IsServer server self.old }
        ensures kept { (n : ℕ) → n ≢ number → IsAwake n self.old → IsAwake n self.new }
        ensures sleepers { (i n : ℕ) (cs : Items Channel) (d : ℕ) → n ≢ number → Sleeps i n cs d self.old → Sleeps i n cs d self.new }
        ensures alone { (n : ℕ) → Contains self.new.awake n → Contains self.old.awake n }
        ensures up { Contains self.new.awake number → ⊥ }
        ensures down { (chans : Items Channel) (deadline : ℕ) → Sleeps server number chans deadline self.new → ⊥ }
        ensures servers { length self.new.servers ≡ length self.old.servers }
        ensures lines { SameLines self.old self.new }
    {
        self.servers[place(server)].forget(number);
        self.awake.take(number);
    }
}
