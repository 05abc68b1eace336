//! What becomes of a write whose proposal was answered.

ghost use Rattle.std.specs.Prelude.{◌≡◌, ◌<◌, ◌≤◌};
ghost use Rattle.std.specs.List.{AllByRecursion as Each};
ghost use Rattle.cluster_requests.specs.Past.{IsMadeLast};
ghost use Rattle.cluster_requests.specs.Plain.{refusal_of};
ghost use Rattle.cluster_works.specs.Asking.{EndsWrite, HoldsWrite, RefusesWrite};

use crate::moves::{Seen, mark_step};
use cat_model::{Entry, Memory};
use cluster_requests::{Plain, Question, Requests, Stand, Start};
use raft_model::Place;
use raft_node::ProposeFault;

/// A write with its number, and its copies.
#[derive(Drop)]
pub struct Write {
    /// What is asked, with its number.
    pub question: Question,
    /// The entry that it enters.
    pub entry: Entry,
    /// How many entries the log would have with it.
    pub entries: u64,
    /// How many bytes they would have.
    pub bytes: u64,
}

// Refuses a write that was proposed.
fn refuse_write(
    requests: &mut Requests,
    server: u32,
    before: Seen,
    now: Seen,
    agreed: &[Entry],
    write: Write,
    why: Plain,
)
    requires room { 2 ≤ requests.old.room }
    requires made { IsMadeLast requests.old.past }
    ensures { RefusesWrite write before now server agreed.now (refusal_of why) requests.old requests.new }
{
    let question = &write.question;
    let number = question.number();
    requests.number(question.agent(), question.asked(), question.draw());
    drop(write);
    mark_step(requests, server, before, now, agreed);
    requests.refuse(number, why);
}

// Holds a write that was proposed.
fn hold_write(
    requests: &mut Requests,
    server: u32,
    before: Seen,
    now: Seen,
    agreed: &[Entry],
    write: Write,
    place: Place,
)
    requires room { 2 ≤ requests.old.room }
    requires made { IsMadeLast requests.old.past }
    requires last { Each (λ h. h.question.number < write.question.number) requests.old.held }
    ensures { HoldsWrite write before now server agreed.now place requests.old requests.new }
{
    let Write {
        question,
        entry,
        ..
    } = write;
    requests.number(question.agent(), question.asked(), question.draw());
    mark_step(requests, server, before, now, agreed);
    let stand = Stand::AtPlace {
        index: place.index,
        term: place.term,
    };
    let start = Start::Proposed {
        index: place.index,
        entry,
    };
    requests.hold(question, server, stand, start);
}

/// Holds or refuses a write, by what its proposal answered.
pub fn end_write(
    requests: &mut Requests,
    server: u32,
    before: Seen,
    now: Seen,
    agreed: &[Entry],
    write: Write,
    proposed: Result<Place, ProposeFault>,
) -> Result<(), Memory>
    requires room { 2 ≤ requests.old.room }
    requires made { IsMadeLast requests.old.past }
    requires last { Each (λ h. h.question.number < write.question.number) requests.old.held }
    ensures { EndsWrite write before now server agreed.now proposed result requests.old requests.new }
{
    match proposed {
        Ok(place) => {
            hold_write(requests, server, before, now, agreed, write, place);
            Ok(())
        }
        Err(ProposeFault::Full) => {
            let why = Plain::LogFull {
                entries: write.entries,
                bytes: write.bytes,
            };
            refuse_write(requests, server, before, now, agreed, write, why);
            Ok(())
        }
        Err(ProposeFault::Halted) => {
            refuse_write(
                requests,
                server,
                before,
                now,
                agreed,
                write,
                Plain::Halted { server },
            );
            Ok(())
        }
        Err(ProposeFault::NotLeader | ProposeFault::Memory) => {
            drop(write);
            Err(Memory)
        }
    }
}
