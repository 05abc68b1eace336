//! A request that was noted last takes its number, and is refused, held or answered at once.

ghost use Rattle.std.specs.Prelude.{◌≡◌, ◌+◌, ◌<◌, ◌≤◌, OnErr, OnOk, length};
ghost use Rattle.std.specs.List.{AllByRecursion as Each};
ghost use Rattle.cluster_rules.specs.Agents.{change};
ghost use Rattle.cat_model.specs.Catalog.{session_at};
ghost use Rattle.cat_model.specs.Log.{commands_of};
ghost use Rattle.cat_model.specs.Machine.{catalog_at};
ghost use Rattle.cluster_rules.specs.Cluster.{server_of};
ghost use Rattle.cluster_requests.specs.Past.{IsMadeLast};
ghost use Rattle.cluster_requests.specs.Plain.{refusal_of};
ghost use Rattle.raft_world.specs.Steps.{IsNumber};
ghost use Rattle.cluster_works.specs.Agents.{IsThere, agent_at, agents_with, own_reply};
ghost use Rattle.cluster_works.specs.Newest.{DiffersInRoom, GivesRenewal, answered_newest, held_newest, numbered_newest, refused_newest, renewed_in, renewed_newest};

use crate::agents::Agents;
use crate::copies::copied_question;
use crate::replies::{own_reply, renewed};
use cat_model::{AgentOp, Asked, Draw, Memory, Shared};
use cluster_replicas::Servers;
use cluster_requests::{Plain, Question, Reply, Requests, Stand, Start};
use outside::Keeper;
use std::alloc::Global;

// Takes room, and gives the request its number.
fn number_newest(
    requests: &mut Requests,
    agent: u32,
    asked: &Asked,
    draw: Draw,
) -> Result<(), Memory>
    requires { IsMadeLast requests.old.past }
    ensures ok { OnOk result (requests.new ≡ numbered_newest agent asked.now draw requests.old) }
    ensures err { OnErr result (requests.new ≡ requests.old) }
{
    requests.prepare()?;
    requests.number(agent, asked, draw);
    Ok(())
}

/// Refuses it for a cause that has no text. It answers Memory also where no number is left.
pub fn refuse_newest(
    requests: &mut Requests,
    agent: u32,
    asked: &Asked,
    draw: Draw,
    why: Plain,
) -> Result<(), Memory>
    requires { IsMadeLast requests.old.past }
    ensures ok { OnOk result (requests.new ≡ refused_newest agent asked.now draw (refusal_of why) requests.old) }
    ensures err { OnErr result (requests.new ≡ requests.old) }
{
    let number = requests.asked().checked_add(1).ok_or(Memory)?;
    number_newest(requests, agent, asked, draw)?;
    requests.refuse(number, why);
    Ok(())
}

// Holds a read with its number, to be looked for at once.
fn hold_question(
    requests: &mut Requests,
    server: u32,
    question: Question,
    deadline: u64,
    applied: u64,
) -> Result<(), Memory>
    requires made { IsMadeLast requests.old.past }
    requires number { question.number ≡ requests.old.asked + 1 }
    requires last { Each (λ h. h.question.number < requests.old.asked + 1) requests.old.held }
    ensures ok { OnOk result (requests.new ≡ held_newest server question.agent question.asked question.draw deadline applied requests.old) }
    ensures err { OnErr result (requests.new ≡ requests.old) }
{
    let number = question.number();
    if number_newest(
        requests,
        question.agent(),
        question.asked(),
        question.draw(),
    )
    .is_err()
    {
        drop(question);
        return Err(Memory);
    }
    let stand = Stand::ForIndex {
        deadline,
        looked: false,
    };
    let start = Start::Looked {
        number,
        server,
        applied,
    };
    requests.hold(question, server, stand, start);
    Ok(())
}

/// Holds a read that needs no round until its deadline, to be looked for at once. It answers Memory also where no number
/// is left.
pub fn hold_newest(
    requests: &mut Requests,
    server: u32,
    agent: u32,
    asked: &Shared<Asked>,
    draw: Draw,
    deadline: u64,
    applied: u64,
) -> Result<(), Memory>
    requires made { IsMadeLast requests.old.past }
    requires last { Each (λ h. h.question.number < requests.old.asked + 1) requests.old.held }
    ensures ok { OnOk result (requests.new ≡ held_newest server agent asked.now draw deadline applied requests.old) }
    ensures err { OnErr result (requests.new ≡ requests.old) }
{
    let number = requests.asked().checked_add(1).ok_or(Memory)?;
    let question = copied_question(number, agent, asked, draw)?;
    hold_question(requests, server, question, deadline, applied)
}

/// Answers it.
pub fn answer_newest(
    requests: &mut Requests,
    agent: u32,
    asked: &Asked,
    draw: Draw,
    reply: Reply,
) -> Result<(), Memory>
    requires { IsMadeLast requests.old.past }
    ensures ok { OnOk result (requests.new ≡ answered_newest agent asked.now draw reply requests.old) }
    ensures err { OnErr result (requests.new ≡ requests.old) }
{
    if number_newest(requests, agent, asked, draw).is_err() {
        drop(reply);
        return Err(Memory);
    }
    requests.give(reply);
    Ok(())
}

// Takes room, and renews a session.
fn renew_session<K: Keeper>(
    servers: &mut Servers<K>,
    requests: &mut Requests,
    server: u32,
    id: u128,
) -> Result<(), Memory>
    requires { IsNumber server servers.old.world }
    ensures servers { OnOk result (servers.new ≡ renewed_in server id servers.old) }
    ensures requests { OnOk result (requests.new ≡ record requests.old { room = 4 }) }
    ensures same { OnErr result (servers.new ≡ servers.old) }
    ensures room { OnErr result (DiffersInRoom requests.old requests.new) }
{
    requests.prepare()?;
    servers.renew(server, id)
}

// Gives an answer to a renewal.
fn give_renewal(
    requests: &mut Requests,
    server: u32,
    agent: u32,
    asked: &Asked,
    draw: Draw,
    reply: Reply,
    applied: u64,
)
    requires made { IsMadeLast requests.old.past }
    requires room { 2 ≤ requests.old.room }
    ensures { GivesRenewal server agent asked.now draw reply applied requests.old requests.new }
{
    requests.number(agent, asked, draw);
    requests.start(Start::Looked {
        number: reply.number(),
        server,
        applied,
    });
    requests.give(reply);
}

/// A server renews a session, if it is there, so that its TTL begins anew, and answers with its row at all that it has
/// applied. After Memory nothing has changed but room. It answers Memory also where no number is left.
pub fn renew_newest<K: Keeper>(
    servers: &mut Servers<K>,
    requests: &mut Requests,
    server: u32,
    agent: u32,
    asked: &Asked,
    draw: Draw,
    id: u128,
) -> Result<(), Memory>
    requires server { IsNumber server servers.old.world }
    requires made { IsMadeLast requests.old.past }
    ensures servers { OnOk result (servers.new ≡ renewed_in server id servers.old) }
    ensures requests { let own = server_of servers.old.servers server in OnOk result (requests.new ≡ renewed_newest server agent asked.now draw (length own.applied) (session_at id (catalog_at (commands_of own.applied)).sessions) requests.old) }
    ensures same { OnErr result (servers.new ≡ servers.old) }
    ensures room { OnErr result (DiffersInRoom requests.old requests.new) }
{
    let number = requests.asked().checked_add(1).ok_or(Memory)?;
    let applied = servers.applied(server);
    let reply = renewed(number, applied, servers.session(server, id))?;
    if renew_session(servers, requests, server, id).is_err() {
        drop(reply);
        return Err(Memory);
    }
    give_renewal(requests, server, agent, asked, draw, reply, applied);
    Ok(())
}

// Takes room, and an agent does what it is asked.
fn change_own(
    agents: &mut Agents,
    requests: &mut Requests,
    alloc: Global,
    agent: u32,
    op: &AgentOp,
) -> Result<(), Memory>
    requires { IsThere agents.old agent }
    ensures agents { OnOk result (agents.new ≡ agents_with agent (change agent op.now (agent_at agents.old agent)) agents.old) }
    ensures requests { OnOk result (requests.new ≡ record requests.old { room = 4 }) }
    ensures same { OnErr result (agents.new ≡ agents.old) }
    ensures room { OnErr result (DiffersInRoom requests.old requests.new) }
{
    requests.prepare()?;
    agents.change(alloc, agent, op)
}

/// An agent does what it is asked, and answers. After Memory nothing has changed but room. It answers Memory also where
/// no number is left.
pub fn answer_own(
    agents: &mut Agents,
    requests: &mut Requests,
    alloc: Global,
    agent: u32,
    asked: &Asked,
    op: &AgentOp,
    draw: Draw,
) -> Result<(), Memory>
    requires agent { IsThere agents.old agent }
    requires made { IsMadeLast requests.old.past }
    ensures agents { OnOk result (agents.new ≡ agents_with agent (change agent op.now (agent_at agents.old agent)) agents.old) }
    ensures requests { OnOk result (requests.new ≡ answered_newest agent asked.now draw (own_reply (requests.old.asked + 1) agent op.now agents.old) requests.old) }
    ensures same { OnErr result (agents.new ≡ agents.old) }
    ensures room { OnErr result (DiffersInRoom requests.old requests.new) }
{
    let number = requests.asked().checked_add(1).ok_or(Memory)?;
    let reply = own_reply(alloc, agents, number, agent, op)?;
    if change_own(agents, requests, alloc, agent, op).is_err() {
        drop(reply);
        return Err(Memory);
    }
    requests.number(agent, asked, draw);
    requests.give(reply);
    Ok(())
}
