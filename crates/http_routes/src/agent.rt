//! Requests that an agent answers by itself.

ghost use Rattle.http_routes.specs.Agents.{note_at};
ghost use Rattle.http_routes.specs.Agents as spec;
ghost use Rattle.http_routes.specs.Errors.{Gives, in_body};
ghost use Rattle.http_routes.specs.Routes as routes;
ghost use Rattle.json_bodies.specs.AgentChecks.{agent_check_of, update_of};
ghost use Rattle.json_bodies.specs.AgentServices.{add_service_of};

use crate::body::of_body;
use crate::checks::{MOST, on_agent, plain, plain_parameters, refuse_if, short};
use crate::method::{get_only, put_only};
use crate::params::{Pair, text};
use crate::table::AgentRoute;
use crate::target::decoded;
use crate::{Parameter, RouteError};
use cat_model::{AgentOp, Request, Status, Text, TtlDef};
use json_bodies::{CheckUpdate, read_agent_check, read_agent_service, read_check_update};
use std::alloc::Global;

/// A request for all services or all checks.
#[tactic(auto, unfolding(crate::specs::Agents::listing))]
fn listing(alloc: Global, op: AgentOp, pairs: &[Pair], body: &[u8]) -> Result<Request, RouteError>
    ensures { Gives result (spec.listing op pairs.now body.now) }
{
    plain(pairs, body)?;
    Ok(on_agent(alloc, op)?)
}

fn service_in(alloc: Global, body: &[u8]) -> Result<AgentOp, RouteError>
    ensures { Gives result (in_body (add_service_of body.now)) }
{
    of_body(read_agent_service(alloc, body))
}

fn check_in(alloc: Global, body: &[u8]) -> Result<TtlDef, RouteError>
    ensures { Gives result (in_body (agent_check_of body.now)) }
{
    of_body(read_agent_check(alloc, body))
}

fn update_in(alloc: Global, body: &[u8]) -> Result<CheckUpdate, RouteError>
    ensures { Gives result (in_body (update_of body.now)) }
{
    of_body(read_check_update(alloc, body))
}

#[tactic(auto, unfolding(crate::specs::Agents::service_register))]
fn service_register(alloc: Global, pairs: &[Pair], body: &[u8]) -> Result<Request, RouteError>
    ensures { Gives result (spec.service_register pairs.now body.now) }
{
    plain(pairs, body)?;
    let op = service_in(alloc, body)?;
    Ok(on_agent(alloc, op)?)
}

#[tactic(auto, unfolding(crate::specs::Agents::service_deregister))]
fn service_deregister(
    alloc: Global,
    part: &[u8],
    pairs: &[Pair],
    body: &[u8],
) -> Result<Request, RouteError>
    ensures { Gives result (spec.service_deregister part.now pairs.now body.now) }
{
    let id = decoded(alloc, part, Parameter::Id)?;
    plain(pairs, body)?;
    Ok(on_agent(alloc, AgentOp::DropService { id })?)
}

#[tactic(auto, unfolding(crate::specs::Agents::check_register))]
fn check_register(alloc: Global, pairs: &[Pair], body: &[u8]) -> Result<Request, RouteError>
    ensures { Gives result (spec.check_register pairs.now body.now) }
{
    plain(pairs, body)?;
    let check = check_in(alloc, body)?;
    Ok(on_agent(alloc, AgentOp::AddCheck { check })?)
}

#[tactic(auto, unfolding(crate::specs::Agents::check_deregister))]
fn check_deregister(
    alloc: Global,
    part: &[u8],
    pairs: &[Pair],
    body: &[u8],
) -> Result<Request, RouteError>
    ensures { Gives result (spec.check_deregister part.now pairs.now body.now) }
{
    let id = decoded(alloc, part, Parameter::Id)?;
    plain(pairs, body)?;
    Ok(on_agent(alloc, AgentOp::DropCheck { id })?)
}

/// The note of a mark.
#[tactic(auto, unfolding(crate::specs::Agents::note_at))]
fn note(alloc: Global, pairs: &[Pair]) -> Result<Text, RouteError>
    ensures { Gives result (note_at pairs.now) }
{
    let note = text(pairs, "note");
    refuse_if(!(note.len() <= MOST), Parameter::Note)?;
    Ok(Text::new(alloc, note)?)
}

/// A check that is marked, with a note.
#[tactic(auto, unfolding(crate::specs::Agents::check_mark))]
fn check_mark(
    alloc: Global,
    status: Status,
    part: &[u8],
    pairs: &[Pair],
    body: &[u8],
) -> Result<Request, RouteError>
    ensures { Gives result (spec.check_mark status part.now pairs.now body.now) }
{
    let id = decoded(alloc, part, Parameter::Id)?;
    plain_parameters(pairs)?;
    let output = note(alloc, pairs)?;
    short(MOST, body)?;
    Ok(on_agent(alloc, AgentOp::Mark { id, status, output })?)
}

#[tactic(auto, unfolding(crate::specs::Agents::check_update))]
fn check_update(
    alloc: Global,
    part: &[u8],
    pairs: &[Pair],
    body: &[u8],
) -> Result<Request, RouteError>
    ensures { Gives result (spec.check_update part.now pairs.now body.now) }
{
    let id = decoded(alloc, part, Parameter::Id)?;
    plain(pairs, body)?;
    let update = update_in(alloc, body)?;
    let op = AgentOp::Mark {
        id,
        status: update.status,
        output: update.output,
    };
    Ok(on_agent(alloc, op)?)
}

/// The methods of an agent's paths.
#[tactic(auto, unfolding(crate::specs::Routes::agent))]
pub(crate) fn agent(
    alloc: Global,
    route: AgentRoute,
    part: &[u8],
    method: &[u8],
    pairs: &[Pair],
    body: &[u8],
) -> Result<Request, RouteError>
    ensures { Gives result (routes.agent route part.now method.now pairs.now body.now) }
{
    match route {
        AgentRoute::Services => {
            get_only(method)?;
            listing(alloc, AgentOp::Services, pairs, body)
        }
        AgentRoute::Checks => {
            get_only(method)?;
            listing(alloc, AgentOp::Checks, pairs, body)
        }
        AgentRoute::ServiceRegister => {
            put_only(method)?;
            service_register(alloc, pairs, body)
        }
        AgentRoute::ServiceDeregister => {
            put_only(method)?;
            service_deregister(alloc, part, pairs, body)
        }
        AgentRoute::CheckRegister => {
            put_only(method)?;
            check_register(alloc, pairs, body)
        }
        AgentRoute::CheckDeregister => {
            put_only(method)?;
            check_deregister(alloc, part, pairs, body)
        }
        AgentRoute::CheckPass => {
            put_only(method)?;
            check_mark(alloc, Status::Passing, part, pairs, body)
        }
        AgentRoute::CheckWarn => {
            put_only(method)?;
            check_mark(alloc, Status::Warning, part, pairs, body)
        }
        AgentRoute::CheckFail => {
            put_only(method)?;
            check_mark(alloc, Status::Critical, part, pairs, body)
        }
        AgentRoute::CheckUpdate => {
            put_only(method)?;
            check_update(alloc, part, pairs, body)
        }
    }
}
