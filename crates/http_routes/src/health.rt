//! Requests on the health of nodes and services.

ghost use Rattle.std.specs.Prelude.{◌≡◌};
ghost use Rattle.http_routes.specs.Catalog.{health_checks, health_node, health_service, health_state, state_of};
ghost use Rattle.http_routes.specs.Catalog as spec;
ghost use Rattle.http_routes.specs.Errors.{Gives};
ghost use Rattle.http_routes.specs.Routes as routes;

use crate::checks::{read, reading_of};
use crate::method::get_only;
use crate::params::{Pair, all, is_on};
use crate::table::HealthRoute;
use crate::target::decoded;
use crate::{Parameter, RouteError};
use cat_model::{Query, Request, Status};
use std::alloc::Global;

#[tactic(auto, unfolding(crate::specs::Catalog::health_node))]
fn node(alloc: Global, part: &[u8], pairs: &[Pair], body: &[u8]) -> Result<Request, RouteError>
    ensures { Gives result (health_node part.now pairs.now body.now) }
{
    let node = decoded(alloc, part, Parameter::Node)?;
    let reading = reading_of(pairs, body)?;
    Ok(read(alloc, Query::HealthNode { node }, reading)?)
}

#[tactic(auto, unfolding(crate::specs::Catalog::health_checks))]
fn checks(alloc: Global, part: &[u8], pairs: &[Pair], body: &[u8]) -> Result<Request, RouteError>
    ensures { Gives result (health_checks part.now pairs.now body.now) }
{
    let name = decoded(alloc, part, Parameter::Name)?;
    let reading = reading_of(pairs, body)?;
    Ok(read(alloc, Query::HealthChecks { name }, reading)?)
}

#[tactic(auto, unfolding(crate::specs::Catalog::health_service))]
fn service(alloc: Global, part: &[u8], pairs: &[Pair], body: &[u8]) -> Result<Request, RouteError>
    ensures { Gives result (health_service part.now pairs.now body.now) }
{
    let name = decoded(alloc, part, Parameter::Name)?;
    let reading = reading_of(pairs, body)?;
    let tags = all(alloc, pairs, "tag")?;
    let passing = is_on(pairs, "passing");
    let query = Query::HealthService {
        name,
        tags,
        passing,
    };
    Ok(read(alloc, query, reading)?)
}

fn state_named(word: &str) -> Option<Option<Status>>
    ensures { result ≡ spec.state_named word.now }
{
    match word {
        "any" => Some(None),
        "passing" => Some(Some(Status::Passing)),
        "warning" => Some(Some(Status::Warning)),
        "critical" => Some(Some(Status::Critical)),
        _ => None,
    }
}

/// The status of a path, or none for all.
#[tactic(auto, unfolding(crate::specs::Catalog::state_of))]
fn state_in(alloc: Global, part: &[u8]) -> Result<Option<Status>, RouteError>
    ensures { Gives result (state_of part.now) }
{
    let word = decoded(alloc, part, Parameter::State)?;
    match state_named(word.as_str()) {
        Some(state) => Ok(state),
        None => Err(RouteError::Target(Parameter::State)),
    }
}

#[tactic(auto, unfolding(crate::specs::Catalog::health_state))]
fn state(alloc: Global, part: &[u8], pairs: &[Pair], body: &[u8]) -> Result<Request, RouteError>
    ensures { Gives result (health_state part.now pairs.now body.now) }
{
    let state = state_in(alloc, part)?;
    let reading = reading_of(pairs, body)?;
    Ok(read(alloc, Query::HealthState { state }, reading)?)
}

/// The methods of health's paths.
#[tactic(auto, unfolding(crate::specs::Routes::health))]
pub(crate) fn health(
    alloc: Global,
    route: HealthRoute,
    part: &[u8],
    method: &[u8],
    pairs: &[Pair],
    body: &[u8],
) -> Result<Request, RouteError>
    ensures { Gives result (routes.health route part.now method.now pairs.now body.now) }
{
    get_only(method)?;
    match route {
        HealthRoute::Node => node(alloc, part, pairs, body),
        HealthRoute::Checks => checks(alloc, part, pairs, body),
        HealthRoute::Service => service(alloc, part, pairs, body),
        HealthRoute::State => state(alloc, part, pairs, body),
    }
}
