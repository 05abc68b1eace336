//! How requests are answered, refused and closed.

ghost use Rattle.std.specs.Prelude.{◌≡◌, ◌<◌, ◌≤◌, ◌+◌, OnOk, OnErr, false};
ghost use Rattle.cluster_rules.specs.Replies.{Says};
ghost use Rattle.cluster_requests.specs.Contents.{content_of};
ghost use Rattle.cluster_requests.specs.Plain.{refusal_of};
ghost use Rattle.cluster_requests.specs.Requests.{answered_with, came_with, closed_with, given_with, used};

use crate::content::Content;
use crate::out::{Given, Out, Reply};
use crate::outs;
use crate::past::Happened;
use crate::plain::Plain;
use crate::requests::Requests;
use cat_model::{Asked, Draw, Kind, Memory, Refusal};

impl Requests {
    /// Answers a request by this reply. There is room for it, so that it takes no memory.
    pub fn give(&mut self, reply: Reply)
        requires { 0 < self.old.room }
        ensures { self.new ≡ used (given_with reply self.old) }
    {
        self.past = self.past.then(&Happened::Answered(&reply));
        self.held.let_go(reply.number());
        outs::put(&mut self.fresh, Out::new(Given::Replied(reply)));
        self.room -= 1;
    }

    /// Answers a request by a reply that rests on this kind and shows this content.
    pub fn answer(
        &mut self,
        number: u64,
        kind: Kind,
        known: bool,
        contact: u64,
        content: Content,
    ) -> Result<(), Memory>
        ensures ok { OnOk result (self.new ≡ answered_with number kind known contact (content_of content) self.old) }
        ensures err { OnErr result (self.new ≡ self.old) }
    {
        let reply = Reply::new(number, kind, known, contact, content);
        match self.prepare_one() {
            Ok(()) => {
                self.give(reply);
                Ok(())
            }
            Err(Memory) => {
                drop(reply);
                Err(Memory)
            }
        }
    }

    /// Marks a request that comes with its number, and refuses it.
    pub fn come_refused(
        &mut self,
        agent: u32,
        asked: &Asked,
        draw: Draw,
        why: &Refusal,
    ) -> Result<(), Memory>
        ensures ok { OnOk result (self.new ≡ answered_with (self.old.asked + 1) (Kind.Refused why.now) false 0 (Says why.now) (came_with agent asked.now draw self.old)) }
        ensures err { OnErr result (self.new ≡ self.old) }
    {
        let number = self.asked.checked_add(1).ok_or(Memory)?;
        let reply = Reply::refusing(number, why)?;
        match self.prepare_two() {
            Ok(()) => {
                self.come(agent, asked, draw);
                self.give(reply);
                Ok(())
            }
            Err(Memory) => {
                drop(reply);
                Err(Memory)
            }
        }
    }

    /// Refuses a request for a cause that has no text. There is room for it, so that it takes no memory.
    pub fn refuse(&mut self, number: u64, why: Plain)
        requires { 0 < self.old.room }
        ensures { self.new ≡ used (answered_with number (Kind.Refused (refusal_of why)) false 0 (Says (refusal_of why)) self.old) }
    {
        self.give(Reply::refusing_for(number, why));
    }

    /// Closes a request, since its server restarted in the event with this number.
    pub fn close(&mut self, number: u64, event: u64) -> Result<(), Memory>
        ensures ok { OnOk result (self.new ≡ closed_with number event self.old) }
        ensures err { OnErr result (self.new ≡ self.old) }
    {
        self.prepare_one()?;
        self.held.let_go(number);
        outs::put(&mut self.fresh, Out::new(Given::Closed { number, event }));
        self.room -= 1;
        Ok(())
    }
}
