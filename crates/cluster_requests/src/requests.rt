//! The requests of a cluster.

ghost use Rattle.std.specs.Prelude.{◌≡◌, ◌==◌, ◌<◌, ◌+◌, [], ◌∷◌, IfOk, IfSome, IfNone, None, Some, OnOk, OnErr, true, filter, is_some, length, map};
ghost use Rattle.cat_model.specs.declared.reply.Mark.TheVariants as mark;
ghost use Rattle.cluster_requests.specs.Contents.{stand_of, start_of};
ghost use Rattle.std.specs.List.{AllByRecursion as Each, find, position};
ghost use Rattle.std.specs.Option.{option_copied};
ghost use Rattle.cluster_rules.specs.Due.{waiting};
ghost use Rattle.cluster_rules.specs.Replies.{number_of};
ghost use Rattle.cluster_requests.specs.Held.{NumbersAll, held_in};
ghost use Rattle.cluster_rules.specs.Step.{events_in};
ghost use Rattle.cat_model.specs.declared.request.Event.TheVariants as event;
ghost use Rattle.cluster_requests.specs.Past.{IsJustMade, IsMadeLast};
ghost use Rattle.cluster_requests.specs.Requests.{came_with, empty, ended_all, forgotten, holding_with, joining, noted, numbered_with, restood, shelved_all, used, with_mark};
ghost use Rattle.cluster_requests.specs.Taking.{IsCollected, IsNumberAt, TakesAt, TakesFirst, is_of};

use crate::collected::Collected;
use crate::events::{one_less, one_more};
use crate::held::HeldRequests;
use crate::out::{Given, Out};
use crate::outs;
use crate::past::{Happened, Past};
use crate::pending::{Pending, Stand, Start};
use crate::question::Question;
use crate::room::reserve;
use crate::slot::HeldSlot;
use crate::starts::Starts;
use cat_model::{Asked, Draw, Entry, Event, List, Memory};
use std::alloc::Global;
use std::collections::VecDeque;
use std::marker::Model;

// Room is taken for so many calls at once.
const CALLS: u64 = 4;

/// The requests of a cluster: those that are held, the outs that wait to be taken, and what has happened.
///
/// Some calls take no memory, so that they can follow what can't be undone. `prepare` takes the room for four of them.
#[derive(Drop)]
pub struct Requests {
    pub(crate) asked: u64,
    // How many there were, as long as that fits.
    pub(crate) events: Option<u64>,
    pub(crate) held: HeldRequests,
    pub(crate) starts: Starts,
    pub(crate) fresh: Vec<Out>,
    pub(crate) tray: VecDeque<Out>,
    pub(crate) past: Past,
    pub(crate) room: u64,
}

impl Model for Requests {
    ghost use Rattle.std.specs.Prelude.{map, vec_len, vec_capacity};
    ghost use Rattle.std.specs.VecDeque.{deque_len, deque_capacity};
    ghost use Rattle.cluster_requests.specs.Ordered.{IsOrdered};
    ghost use Rattle.cluster_requests.specs.Requests as spec;

    ghost Value = { spec.Requests };

    ghost use Rattle.cluster_requests.specs.Contents.{start_of};

    ghost view = { λ r. record {
      asked = r.asked;
      held = r.held.requests;
      starts = map start_of r.starts.items;
      fresh = r.fresh.items;
      tray = r.tray.items;
      past = r.past.items;
      room = r.room;
    } };

    ghost invariant = { λ r.
        spec.HasRoom r.room r.held.room (vec_len r.fresh) (vec_capacity r.fresh) (deque_len r.tray) (deque_capacity r.tray)
        × spec.HasNumbers r.room r.asked r.events r.past.items
        × IsOrdered r.fresh.items };
}

impl Requests {
    /// No requests.
    pub fn new(alloc: Global) -> Requests
        ensures { result ≡ empty }
    {
        Requests {
            asked: 0,
            events: Some(0),
            held: HeldRequests::new(alloc),
            starts: Starts::new(),
            fresh: Vec::new(alloc),
            tray: VecDeque::new(alloc),
            past: Past::new(),
            room: 0,
        }
    }

    // Takes the room for so many calls.
    fn make_room(&mut self, room: u64) -> Result<(), Memory>
        ensures ok { OnOk result (self.new ≡ record self.old { room = room }) }
        ensures err { OnErr result (self.new ≡ self.old) }
    {
        if self.asked > u64::MAX - room {
            return Err(Memory);
        }
        reserve(&mut self.held, &mut self.fresh, &mut self.tray, room)?;
        self.room = room;
        Ok(())
    }

    /// Takes the room for four calls that take no memory.
    pub fn prepare(&mut self) -> Result<(), Memory>
        ensures ok { OnOk result (self.new ≡ record self.old { room = 4 }) }
        ensures err { OnErr result (self.new ≡ self.old) }
    {
        self.make_room(CALLS)
    }

    /// Takes the room for one call more.
    pub(crate) fn prepare_one(&mut self) -> Result<(), Memory>
        ensures ok { OnOk result (self.new ≡ record self.old { room = self.old.room + 1 }) }
        ensures err { OnErr result (self.new ≡ self.old) }
    {
        match self.room.checked_add(1) {
            Some(room) => self.make_room(room),
            None => Err(Memory),
        }
    }

    /// Takes the room for two calls more.
    pub(crate) fn prepare_two(&mut self) -> Result<(), Memory>
        ensures ok { OnOk result (self.new ≡ record self.old { room = self.old.room + 2 }) }
        ensures err { OnErr result (self.new ≡ self.old) }
    {
        match self.room.checked_add(2) {
            Some(room) => self.make_room(room),
            None => Err(Memory),
        }
    }

    /// How many requests were asked.
    pub fn asked(&self) -> u64
        ensures { result ≡ self.now.asked }
    {
        self.asked
    }

    /// The slots of the requests that are held, in the order of their numbers.
    pub fn held(&self) -> &[HeldSlot]
        ensures { held_in result.now ≡ self.now.held }
    {
        self.held.slots()
    }

    /// The held request of a number. It costs a logarithm of how many are held.
    pub fn pending(&self, number: u64) -> Option<&Pending>
        ensures { option_copied result ≡ find (λ h. h.question.number == number) self.now.held }
    {
        self.held.get(number)
    }

    /// How many of the requests that are held wait at a server for an index. None is looked at, where the server's
    /// number is below 8, as all of a cluster's are.
    pub fn waiting(&self, server: u32) -> usize
        ensures { result ≡ waiting server self.now.held }
    {
        self.held.waiting(server)
    }

    /// How many events there were, as long as that fits.
    pub fn events(&self) -> Option<u64>
        ensures { IfSome result (λ events. events ≡ events_in self.now.past) }
    {
        self.events
    }

    /// The entries of the agreed log from this place on joined it.
    #[tactic(auto, using(crate::proofs::Numbering::entries_uncounted))]
    pub fn join(&mut self, agreed: &[Entry], from: u64)
        ensures { self.new ≡ joining from agreed.now self.old }
    {
        self.past = self.past.then(&Happened::Joined { agreed, from });
    }

    /// The server's durable store failed.
    pub fn halt(&mut self, server: u32)
        ensures { self.new ≡ with_mark (mark.Halted server) self.old }
    {
        self.past = self.past.then(&Happened::Halted(server));
    }

    /// Marks an event, whatever it is.
    pub fn note(&mut self, made: &Event)
        ensures { self.new ≡ noted made.now self.old }
    {
        self.past = self.past.then(&Happened::Made(made));
        self.events = one_more(self.events);
    }

    /// Marks an event that is a request, of which the number is still to be given.
    pub fn note_request(&mut self, agent: u32, asked: &Asked, draw: Draw)
        ensures { self.new ≡ noted (event.Ask agent asked.now draw) self.old }
    {
        self.past = self.past.then(&Happened::Requested { agent, asked, draw });
        self.events = one_more(self.events);
    }

    /// Takes the mark of the event at work back, which has changed nothing.
    #[tactic(auto, using(crate::proofs::Numbering::one_forgotten))]
    pub fn forget(&mut self)
        requires { IsJustMade self.old.past }
        ensures { self.new ≡ forgotten self.old }
    {
        self.past = self.past.then(&Happened::Forgotten);
        self.events = one_less(self.events);
    }

    /// The request that was noted last takes its number, and its mark. Answers alone were given since. There is a number
    /// for it.
    #[tactic(auto, using(crate::proofs::Numbering::count_stays))]
    pub fn number(&mut self, agent: u32, asked: &Asked, draw: Draw)
        requires room { 0 < self.old.room }
        requires made { IsMadeLast self.old.past }
        ensures { self.new ≡ used (numbered_with agent asked.now draw self.old) }
    {
        let number = self.asked + 1;
        self.past = self.past.then(&Happened::Numbered {
            number,
            agent,
            asked,
            draw,
        });
        self.asked = number;
        self.room -= 1;
    }

    /// Marks so many pairs of a delivery and the message's loss.
    pub fn settle(&mut self, pairs: u32)
        ensures { self.new ≡ with_mark (mark.Settled pairs true) self.old }
    {
        self.past = self.past.then(&Happened::Settled(pairs));
    }

    /// Marks a request that comes with its number. There is a number for it.
    pub fn come(&mut self, agent: u32, asked: &Asked, draw: Draw)
        requires { 0 < self.old.room }
        ensures { self.new ≡ used (came_with agent asked.now draw self.old) }
    {
        self.asked += 1;
        self.past = self.past.then(&Happened::Came {
            number: self.asked,
            agent,
            asked,
            draw,
        });
        self.events = one_more(self.events);
        self.room -= 1;
    }

    /// The server holds the request, whose number is above those of all that are held. There is room for it, so that it
    /// takes no memory.
    pub fn hold(&mut self, question: Question, server: u32, stand: Stand, start: Start)
        requires room { 0 < self.old.room }
        requires last { Each (λ h. h.question.number < question.number) self.old.held }
        ensures { self.new ≡ used (holding_with question server (stand_of stand) (start_of start) self.old) }
    {
        self.held.push(Pending::new(question, server, stand));
        self.starts = self.starts.with(&start);
        drop(start);
        self.room -= 1;
    }

    /// Notes what the act of a request's asking did.
    pub fn start(&mut self, start: Start)
        ensures { self.new ≡ record self.old { starts = start_of start ∷ self.old.starts } }
    {
        self.starts = self.starts.with(&start);
        drop(start);
    }

    /// The held request of a number waits for something else.
    pub fn restand(&mut self, number: u64, stand: Stand)
        ensures { self.new ≡ record self.old { held = map (restood number (stand_of stand)) self.old.held } }
    {
        self.held.restand(number, stand);
    }

    /// A server restarted in the event that was noted last, which has this number: each request that it holds is to be
    /// closed.
    pub fn end_all_of(&mut self, server: u32, event: u64)
        requires { event ≡ events_in self.old.past }
        ensures { self.new ≡ ended_all server self.old }
    {
        self.held.end_all(server, event);
    }

    /// The same, where these are the numbers of all that the server holds. Each is found in a logarithm, and no other is
    /// looked at.
    pub fn end_among(&mut self, server: u32, event: u64, numbers: &[u64])
        requires event { event ≡ events_in self.old.past }
        requires numbers { NumbersAll server numbers.now self.old.held }
        ensures { self.new ≡ ended_all server self.old }
    {
        self.held.end_among(server, event, numbers);
    }

    /// Lets the outs of the event join the tray. It takes no memory.
    pub fn shelve(&mut self)
        ensures { self.new ≡ shelved_all self.old }
    {
        outs::shelve(&mut self.tray, &mut self.fresh);
    }

    /// Lets go of the outs of syncs in the tray, which no request waits for. It takes no memory.
    pub fn drop_syncs(&mut self)
        ensures { self.new ≡ record self.old { tray = filter (λ o. is_some (number_of o)) self.old.tray } }
    {
        outs::drop_syncs(&mut self.tray);
    }

    /// Takes the first out of the tray, if there is one.
    #[tactic(auto, using(crate::proofs::Numbering::taken_uncounted))]
    pub fn next_out(&mut self) -> Option<Out>
        ensures none { IfNone result ((self.old.tray ≡ []) × (self.new ≡ self.old)) }
        ensures some { IfSome result (λ out. TakesFirst out self.old self.new) }
    {
        match self.tray.pop_front() {
            None => None,
            Some(out) => {
                self.past = self.past.then(&Happened::Taken(out.number()));
                Some(out)
            }
        }
    }

    /// How many outs wait to be taken.
    pub fn outs(&self) -> usize
        ensures { result ≡ length self.now.tray }
    {
        self.tray.len()
    }

    /// The number of the request whose out stands at this place of the tray, where it is a request's.
    pub fn out_number(&self, at: usize) -> Option<u64>
        requires { at < length self.now.tray }
        ensures { IsNumberAt at self.now.tray result }
    {
        self.tray[at].number()
    }

    // Takes the out at a place of the tray.
    #[tactic(auto, using(crate::proofs::Numbering::taken_uncounted))]
    fn take_at(&mut self, at: usize) -> Out
        requires { at < length self.old.tray }
        ensures { TakesAt at result self.old self.new }
    {
        let Some(out) = self.tray.remove(at) else {
            unreachable!()
        };
        self.past = self.past.then(&Happened::Taken(out.number()));
        out
    }

    /// Takes a request's out, or says what it waits for.
    #[tactic(none)]
    pub fn collect(&mut self, number: u64) -> Collected
        ensures { IsCollected number result self.old self.new }
    {
        match outs::find(&self.tray, number) {
            Some(at) => self.collect_at(at, number),
            None => self.awaited(number),
        }
    }

    // What a request without an out waits for.
    #[tactic(none)]
    fn awaited(&self, number: u64) -> Collected
        requires { position (λ o. is_of number o) self.now.tray ≡ None }
        ensures { IsCollected number result self.now self.now }
    {
        match self.held.get(number) {
            Some(pending) => Collected::NotYet(pending.awaits()),
            None => Collected::Gone,
        }
    }

    // Takes a request's out from its place.
    #[tactic(none)]
    fn collect_at(&mut self, at: usize, number: u64) -> Collected
        requires { position (λ o. is_of number o) self.old.tray ≡ Some at }
        ensures { IsCollected number result self.old self.new }
    {
        match self.take_at(at).into_given() {
            Given::Replied(reply) => Collected::Ready(reply),
            Given::Closed { event, .. } => Collected::Closed { event },
            Given::Synced { .. } => unreachable!(),
        }
    }

    /// The numbers of the requests that wait for their out, in the order in which they are held.
    pub fn unanswered(&self, alloc: Global) -> Result<List<u64>, Memory>
        ensures { IfOk result (λ numbers. numbers ≡ map (λ h. h.question.number) self.now.held) }
    {
        Ok(List::from(self.held.numbers(alloc)?))
    }
}
