//! Which of the requests that were asked may have something due, so that an event looks at those alone.

ghost use Rattle.std.specs.Prelude.{◌≡◌, ◌⊎◌, ◌≢◌, ◌<◌, ◌≤◌, [], ◌∷◌, ℕ, IfNone, IfOk, IfSome, Contains, List, length, true, false};
ghost use Rattle.std.specs.List.{AllByRecursion as Each};
ghost use Rattle.cat_model.specs.Reach.{is_on};
ghost use Rattle.cat_model.specs.declared.query.Chan.{Chan as SpecChan};
ghost use Rattle.cluster_requests.specs.Held.{held_in};
ghost use Rattle.cluster_rules.specs.Cluster.{AtPlace, Stand as SpecStand};
ghost use Rattle.read_watch.specs.Lines.{IsFrom, line_of};
ghost use Rattle.read_watch.specs.Watch.{AwaitsPosition, AwaitsRound, IsServer};
ghost use Rattle.cluster_works.specs.Watching.{IsInLine, LeaveLine, MayBeDue, SameLines, Sleeps, StayAwake, StayInLine, nothing_watched};

use cat_model::{Chan, List, Memory};
use cluster_requests::HeldSlot;
use read_watch::Watch;
use std::alloc::Global;
use std::marker::Model;

/// A watch that has taken in the requests up to the one with this number. Of one that was asked since, something may be
/// due, as of one that is awake.
#[derive(Drop)]
pub struct Watching {
    watch: Watch,
    seen: u64,
}

impl Model for Watching {
    ghost use Rattle.cluster_works.specs.Watching as spec;

    ghost Value = { spec.Watching };

    ghost view = { λ w. record { watch = w.watch; seen = w.seen } };
}

impl Watching {
    /// Nothing was asked of so many servers.
    pub fn new(alloc: Global, servers: u32) -> Result<Watching, Memory>
        ensures { IfOk result (λ w. w ≡ nothing_watched servers) }
    {
        Ok(Watching {
            watch: Watch::new(alloc, servers)?,
            seen: 0,
        })
    }

    /// Something may be due of the request with this number.
    pub fn wake(&mut self, number: u64)
        ensures woken { MayBeDue number self.new }
        ensures kept { StayAwake self.old self.new }
        ensures servers { self.new.watch.servers ≡ self.old.watch.servers }
        ensures lines { SameLines self.old self.new }
        ensures seen { self.new.seen ≡ self.old.seen }
    {
        self.watch.wake(number);
    }

    /// Takes in the requests that were asked since, up to the one with this number.
    pub fn take_in(&mut self, asked: u64)
        requires { self.old.seen ≤ asked }
        ensures kept { StayAwake self.old self.new }
        ensures servers { self.new.watch.servers ≡ self.old.watch.servers }
        ensures lines { SameLines self.old self.new }
        ensures seen { self.new.seen ≤ asked }
    {
        while self.seen < asked {
            self.seen += 1;
            self.watch.wake(self.seen);
        }
    }

    /// Of the requests up to this number, none but those of `awake` may have something due.
    pub fn covers(&self, asked: u64) -> bool
        ensures { result ≡ true → (number : ℕ) → number ≤ asked → MayBeDue number self.now → Contains self.now.watch.awake number }
    {
        asked <= self.seen && !self.watch.is_all()
    }

    /// The numbers of those that are awake.
    pub fn awake(&self) -> &[u64]
        ensures { result.now ≡ self.now.watch.awake }
    {
        self.watch.awake()
    }

    /// Those wake that sleep at the server on one of these channels.
    pub fn fire(&mut self, alloc: Global, server: u32, fired: &List<Chan>)
        requires { IsServer server self.old.watch }
        ensures kept { StayAwake self.old self.new }
        ensures slept { (i number : ℕ) (chans : List SpecChan) (deadline : ℕ) → Sleeps i number chans deadline self.old → MayBeDue number self.new ⊎ (Sleeps i number chans deadline self.new × (i ≡ server → is_on fired.now chans ≡ false)) }
        ensures servers { length self.new.watch.servers ≡ length self.old.watch.servers }
        ensures lines { SameLines self.old self.new }
        ensures seen { self.new.seen ≡ self.old.seen }
    {
        self.watch.fire(alloc, server, fired);
    }

    /// Those wake that sleep at the server and whose time is over by its clock, in milliseconds.
    pub fn wake_over(&mut self, alloc: Global, server: u32, clock: u64)
        requires { IsServer server self.old.watch }
        ensures kept { StayAwake self.old self.new }
        ensures slept { (i number : ℕ) (chans : List SpecChan) (deadline : ℕ) → Sleeps i number chans deadline self.old → MayBeDue number self.new ⊎ (Sleeps i number chans deadline self.new × (i ≡ server → clock < deadline)) }
        ensures servers { length self.new.watch.servers ≡ length self.old.watch.servers }
        ensures lines { SameLines self.old self.new }
        ensures seen { self.new.seen ≡ self.old.seen }
    {
        self.watch.wake_over(alloc, server, clock);
    }

    /// A request sleeps at the server, on these channels and until this time of its clock, unless there is no memory.
    pub fn sleep(
        &mut self,
        alloc: Global,
        server: u32,
        number: u64,
        chans: &List<Chan>,
        deadline: u64,
    )
        requires server { IsServer server self.old.watch }
        requires two { length chans.now ≤ 2 }
        ensures kept { (other : ℕ) → other ≢ number → MayBeDue other self.old → MayBeDue other self.new }
        ensures slept { (i other : ℕ) (on : List SpecChan) (until : ℕ) → other ≢ number → Sleeps i other on until self.old → Sleeps i other on until self.new }
        ensures rests { MayBeDue number self.new ⊎ Sleeps server number chans.now deadline self.new }
        ensures servers { length self.new.watch.servers ≡ length self.old.watch.servers }
        ensures lines { SameLines self.old self.new }
        ensures seen { self.new.seen ≡ self.old.seen }
    {
        self.watch.sleep(alloc, server, number, chans, deadline);
    }

    /// Nothing is due any more of the request with this number, which the server held.
    pub fn forget(&mut self, server: u32, number: u64)
        requires { IsServer server self.old.watch }
        ensures kept { (other : ℕ) → other ≢ number → MayBeDue other self.old → MayBeDue other self.new }
        ensures slept { (i other : ℕ) (on : List SpecChan) (until : ℕ) → other ≢ number → Sleeps i other on until self.old → Sleeps i other on until self.new }
        ensures servers { length self.new.watch.servers ≡ length self.old.watch.servers }
        ensures lines { SameLines self.old self.new }
        ensures seen { self.new.seen ≡ self.old.seen }
    {
        self.watch.forget(server, number);
    }

    /// A write, which the server holds, is in line for the position at which it was entered, unless there is no memory.
    pub fn await_position(&mut self, server: u32, number: u64, index: u64)
        requires { IsServer server self.old.watch }
        ensures kept { (other : ℕ) → other ≢ number → MayBeDue other self.old → MayBeDue other self.new }
        ensures rests { MayBeDue number self.new ⊎ AwaitsPosition server number index self.new.watch }
        ensures lines { StayInLine self.old self.new }
        ensures servers { self.new.watch.servers ≡ self.old.watch.servers }
        ensures seen { self.new.seen ≡ self.old.seen }
    {
        self.watch.await_position(server, number, index);
    }

    /// A read, which the server holds, is in line for its round, unless there is no memory.
    pub fn await_round(&mut self, server: u32, number: u64, term: u64, round: u64)
        requires { IsServer server self.old.watch }
        ensures kept { (other : ℕ) → other ≢ number → MayBeDue other self.old → MayBeDue other self.new }
        ensures rests { MayBeDue number self.new ⊎ AwaitsRound server number term round self.new.watch }
        ensures lines { StayInLine self.old self.new }
        ensures servers { self.new.watch.servers ≡ self.old.watch.servers }
        ensures seen { self.new.seen ≡ self.old.seen }
    {
        self.watch.await_round(server, number, term, round);
    }

    /// Something may be due of the writes that are in line at the server for this position or an earlier one.
    pub fn wake_reached(&mut self, server: u32, position: u64)
        requires { IsServer server self.old.watch }
        ensures kept { StayAwake self.old self.new }
        ensures lines { LeaveLine self.old self.new }
        ensures later { (number index term : ℕ) → IsInLine server number (AtPlace index term) self.old → MayBeDue number self.new ⊎ (position < index) }
        ensures servers { self.new.watch.servers ≡ self.old.watch.servers }
        ensures seen { self.new.seen ≡ self.old.seen }
    {
        self.watch.wake_reached(server, position);
    }

    /// The term and the number of the first round for which a read is in line at the server.
    pub fn first_round(&self, server: u32) -> Option<(u64, u64)>
        requires { IsServer server self.now.watch }
        ensures none { IfNone result (line_of self.now.watch.rounds server ≡ []) }
        ensures some { IfSome result (λ round. Each (IsFrom round) (line_of self.now.watch.rounds server)) }
    {
        self.watch.first_round(server)
    }

    /// Something may be due of the read that is first in line for a round at the server, if one is, and it tells whether
    /// one was.
    pub fn wake_first_round(&mut self, server: u32) -> bool
        requires { IsServer server self.old.watch }
        ensures none { result ≡ false → line_of self.new.watch.rounds server ≡ [] }
        ensures shorter { result ≡ true → length (line_of self.new.watch.rounds server) < length (line_of self.old.watch.rounds server) }
        ensures kept { StayAwake self.old self.new }
        ensures lines { LeaveLine self.old self.new }
        ensures servers { self.new.watch.servers ≡ self.old.watch.servers }
        ensures seen { self.new.seen ≡ self.old.seen }
    {
        self.watch.wake_first_round(server)
    }

    /// Something may be due of all that sleep or are in line at the server.
    pub fn rouse(&mut self, server: u32)
        requires { IsServer server self.old.watch }
        ensures kept { StayAwake self.old self.new }
        ensures slept { (i number : ℕ) (chans : List SpecChan) (deadline : ℕ) → Sleeps i number chans deadline self.old → MayBeDue number self.new ⊎ (Sleeps i number chans deadline self.new × (i ≢ server)) }
        ensures lines { (i number : ℕ) (stand : SpecStand) → IsInLine i number stand self.old → MayBeDue number self.new ⊎ (IsInLine i number stand self.new × (i ≢ server)) }
        ensures servers { length self.new.watch.servers ≡ length self.old.watch.servers }
        ensures seen { self.new.seen ≡ self.old.seen }
    {
        self.watch.rouse(server);
    }

    // The request of a slot is awake, if one is held there and there is memory for it, and tells whether it is.
    fn add_slot(&mut self, slot: &HeldSlot) -> bool
        ensures there { result ≡ true → Each (λ h. Contains self.new.watch.awake h.question.number) (held_in (slot.now ∷ [])) }
        ensures kept { (n : ℕ) → Contains self.old.watch.awake n → Contains self.new.watch.awake n }
        ensures all { self.new.watch.all ≡ self.old.watch.all }
        ensures servers { self.new.watch.servers ≡ self.old.watch.servers }
        ensures seen { self.new.seen ≡ self.old.seen }
    {
        match slot.pending() {
            Some(held) => self.watch.add(held.number()),
            None => true,
        }
    }

    /// Where memory ran out before, those that are held in these slots are awake, and no others, once there is memory
    /// again. Else nothing changes.
    pub fn recover(&mut self, slots: &[HeldSlot])
        ensures awake { (self.new ≡ self.old) ⊎ Each (λ h. MayBeDue h.question.number self.new) (held_in slots.now) }
        ensures servers { self.new.watch.servers ≡ self.old.watch.servers }
        ensures seen { self.new.seen ≡ self.old.seen }
    {
        if !self.watch.is_all() {
            return;
        }
        for slot in slots {
            if !self.add_slot(slot) {
                return;
            }
        }
        self.watch.trust();
    }
}
