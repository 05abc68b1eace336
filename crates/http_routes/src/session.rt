//! Requests on sessions.

ghost use Rattle.std.specs.Prelude.{◌≡◌};
ghost use Rattle.http_routes.specs.Errors.{Gives, in_body};
ghost use Rattle.http_routes.specs.Routes as routes;
ghost use Rattle.http_routes.specs.Sessions.{creation, session_create, session_destroy, session_info, session_node, session_renew};
ghost use Rattle.http_routes.specs.Sessions as spec;
ghost use Rattle.json_bodies.specs.Sessions.{session_of};

use crate::body::of_body;
use crate::catalog::whole;
use crate::checks::{plain, read, reading_of, write};
use crate::method::{get_only, put_only};
use crate::params::{Pair, id_of};
use crate::table::SessionRoute;
use crate::target::decoded;
use crate::{Parameter, RouteError};
use cat_model::{Command, Query, Request};
use json_bodies::{NewSession, read_session};
use std::alloc::Global;

fn session_in(alloc: Global, body: &[u8]) -> Result<NewSession, RouteError>
    ensures { Gives result (in_body (session_of body.now)) }
{
    of_body(read_session(alloc, body))
}

/// The creation of a session, whose identifier is drawn later.
fn create_command(session: NewSession) -> Command
    ensures { result ≡ creation session }
{
    Command::SessionCreate {
        id: 0,
        name: session.name,
        node: session.node,
        checks: session.checks,
        behavior: session.behavior,
        delay_ms: session.delay_ms,
        ttl_ms: session.ttl_ms,
    }
}

#[tactic(auto, unfolding(crate::specs::Sessions::session_create))]
fn create(alloc: Global, pairs: &[Pair], body: &[u8]) -> Result<Request, RouteError>
    ensures { Gives result (session_create pairs.now body.now) }
{
    plain(pairs, body)?;
    let session = session_in(alloc, body)?;
    Ok(write(alloc, create_command(session))?)
}

/// The identifier of a path.
#[tactic(auto, unfolding(crate::specs::Sessions::id_of))]
fn id_in(alloc: Global, part: &[u8]) -> Result<u128, RouteError>
    ensures { Gives result (spec.id_of part.now) }
{
    let text = decoded(alloc, part, Parameter::Id)?;
    match id_of(text.as_str()) {
        Some(id) => Ok(id),
        None => Err(RouteError::Target(Parameter::Id)),
    }
}

#[tactic(auto, unfolding(crate::specs::Sessions::session_destroy))]
fn destroy(alloc: Global, part: &[u8], pairs: &[Pair], body: &[u8]) -> Result<Request, RouteError>
    ensures { Gives result (session_destroy part.now pairs.now body.now) }
{
    let id = id_in(alloc, part)?;
    plain(pairs, body)?;
    Ok(write(alloc, Command::SessionDestroy { id })?)
}

#[tactic(auto, unfolding(crate::specs::Sessions::session_renew))]
fn renew(alloc: Global, part: &[u8], pairs: &[Pair], body: &[u8]) -> Result<Request, RouteError>
    ensures { Gives result (session_renew part.now pairs.now body.now) }
{
    let id = id_in(alloc, part)?;
    plain(pairs, body)?;
    Ok(Request::Renew { id })
}

#[tactic(auto, unfolding(crate::specs::Sessions::session_info))]
fn info(alloc: Global, part: &[u8], pairs: &[Pair], body: &[u8]) -> Result<Request, RouteError>
    ensures { Gives result (session_info part.now pairs.now body.now) }
{
    let id = id_in(alloc, part)?;
    let reading = reading_of(pairs, body)?;
    Ok(read(alloc, Query::SessionInfo { id }, reading)?)
}

#[tactic(auto, unfolding(crate::specs::Sessions::session_node))]
fn node(alloc: Global, part: &[u8], pairs: &[Pair], body: &[u8]) -> Result<Request, RouteError>
    ensures { Gives result (session_node part.now pairs.now body.now) }
{
    let node = decoded(alloc, part, Parameter::Node)?;
    let reading = reading_of(pairs, body)?;
    Ok(read(alloc, Query::SessionsOf { node }, reading)?)
}

/// The methods of sessions' paths.
#[tactic(auto, unfolding(crate::specs::Routes::session))]
pub(crate) fn session(
    alloc: Global,
    route: SessionRoute,
    part: &[u8],
    method: &[u8],
    pairs: &[Pair],
    body: &[u8],
) -> Result<Request, RouteError>
    ensures { Gives result (routes.session route part.now method.now pairs.now body.now) }
{
    match route {
        SessionRoute::Create => {
            put_only(method)?;
            create(alloc, pairs, body)
        }
        SessionRoute::Destroy => {
            put_only(method)?;
            destroy(alloc, part, pairs, body)
        }
        SessionRoute::Renew => {
            put_only(method)?;
            renew(alloc, part, pairs, body)
        }
        SessionRoute::Info => {
            get_only(method)?;
            info(alloc, part, pairs, body)
        }
        SessionRoute::Node => {
            get_only(method)?;
            node(alloc, part, pairs, body)
        }
        SessionRoute::List => {
            get_only(method)?;
            whole(alloc, Query::Sessions, pairs, body)
        }
    }
}
