//! A consistent read waits for a round of acknowledgements, which is begun for it.

ghost use Rattle.std.specs.Prelude.{◌<◌, ◌≤◌};
ghost use Rattle.std.specs.List.{AllByRecursion as Each};
ghost use Rattle.cluster_requests.specs.Past.{IsMadeLast};
ghost use Rattle.cluster_works.specs.Asking.{EndsProbe, HoldsRead};

use crate::moves::{Seen, mark_step};
use cat_model::{Entry, Memory};
use cluster_requests::{Question, Requests, Stand, Start};
use raft_model::Round;
use raft_node::ProbeFault;

// Holds a read whose round was begun.
fn hold_read(
    requests: &mut Requests,
    server: u32,
    before: Seen,
    now: Seen,
    agreed: &[Entry],
    read: Question,
    deadline: u64,
    round: Round,
)
    requires room { 2 ≤ requests.old.room }
    requires made { IsMadeLast requests.old.past }
    requires last { Each (λ h. h.question.number < read.number) requests.old.held }
    ensures { HoldsRead read before now server agreed.now deadline round requests.old requests.new }
{
    let number = read.number();
    requests.number(read.agent(), read.asked(), read.draw());
    mark_step(requests, server, before, now, agreed);
    let stand = Stand::InRound { round, deadline };
    let start = Start::Probed {
        number,
        server,
        round,
    };
    requests.hold(read, server, stand, start);
}

/// Holds a read, where its round was begun.
pub fn end_probe(
    requests: &mut Requests,
    server: u32,
    before: Seen,
    now: Seen,
    agreed: &[Entry],
    read: Question,
    deadline: u64,
    probed: Result<Round, ProbeFault>,
) -> Result<(), Memory>
    requires room { 2 ≤ requests.old.room }
    requires made { IsMadeLast requests.old.past }
    requires last { Each (λ h. h.question.number < read.number) requests.old.held }
    ensures { EndsProbe read before now server agreed.now deadline probed result requests.old requests.new }
{
    match probed {
        Ok(round) => {
            hold_read(requests, server, before, now, agreed, read, deadline, round);
            Ok(())
        }
        Err(_) => {
            drop(read);
            Err(Memory)
        }
    }
}
