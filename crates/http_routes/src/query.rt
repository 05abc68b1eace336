//! Requests on prepared queries.

ghost use Rattle.std.specs.Prelude.{◌≡◌};
ghost use Rattle.http_routes.specs.Catalog.{whole as whole_read};
ghost use Rattle.http_routes.specs.Errors.{Gives, in_body};
ghost use Rattle.http_routes.specs.PreparedQueries.{id_only, query_create, query_delete, query_execute, query_info, query_update, setting};
ghost use Rattle.http_routes.specs.Routes as routes;
ghost use Rattle.http_routes.specs.Methods.{delete_get_put, get_post};
ghost use Rattle.json_bodies.specs.NewQueries.{query_of};

use crate::body::of_body;
use crate::catalog::whole;
use crate::checks::{MOST, center, mode, plain, read, reading_of, short, unfiltered, write};
use crate::method::get_only;
use crate::params::{Pair, id_of, number};
use crate::table::QueryRoute;
use crate::target::{decoded, is};
use crate::{Allow, Parameter, RouteError};
use cat_model::{Command, Query, Request};
use json_bodies::{NewQuery, read_query};
use std::alloc::Global;

fn query_in(alloc: Global, body: &[u8]) -> Result<NewQuery, RouteError>
    ensures { Gives result (in_body (query_of body.now)) }
{
    of_body(read_query(alloc, body))
}

fn set_command(id: u128, create: bool, query: NewQuery) -> Command
    ensures { result ≡ setting id create query }
{
    Command::QuerySet {
        id,
        create,
        name: query.name,
        session: query.session,
        service: query.service,
        only_passing: query.only_passing,
        tags: query.tags,
        dns_ttl_ms: query.dns_ttl_ms,
    }
}

/// The creation of a query, whose identifier is drawn later.
#[tactic(auto, unfolding(crate::specs::PreparedQueries::query_create))]
fn create(alloc: Global, pairs: &[Pair], body: &[u8]) -> Result<Request, RouteError>
    ensures { Gives result (query_create pairs.now body.now) }
{
    plain(pairs, body)?;
    let query = query_in(alloc, body)?;
    Ok(write(alloc, set_command(0, true, query))?)
}

/// The identifier of a path.
#[tactic(auto, unfolding(crate::specs::PreparedQueries::id_only))]
fn id_in(alloc: Global, part: &[u8]) -> Result<u128, RouteError>
    ensures { Gives result (id_only part.now) }
{
    let text = decoded(alloc, part, Parameter::IdOrName)?;
    match id_of(text.as_str()) {
        Some(id) => Ok(id),
        None => Err(RouteError::Target(Parameter::Id)),
    }
}

#[tactic(auto, unfolding(crate::specs::PreparedQueries::query_info))]
fn info(alloc: Global, part: &[u8], pairs: &[Pair], body: &[u8]) -> Result<Request, RouteError>
    ensures { Gives result (query_info part.now pairs.now body.now) }
{
    let id = id_in(alloc, part)?;
    let reading = reading_of(pairs, body)?;
    Ok(read(alloc, Query::QueryInfo { id }, reading)?)
}

#[tactic(auto, unfolding(crate::specs::PreparedQueries::query_update))]
fn update(alloc: Global, part: &[u8], pairs: &[Pair], body: &[u8]) -> Result<Request, RouteError>
    ensures { Gives result (query_update part.now pairs.now body.now) }
{
    let id = id_in(alloc, part)?;
    plain(pairs, body)?;
    let query = query_in(alloc, body)?;
    Ok(write(alloc, set_command(id, false, query))?)
}

#[tactic(auto, unfolding(crate::specs::PreparedQueries::query_delete))]
fn delete(alloc: Global, part: &[u8], pairs: &[Pair], body: &[u8]) -> Result<Request, RouteError>
    ensures { Gives result (query_delete part.now pairs.now body.now) }
{
    let id = id_in(alloc, part)?;
    plain(pairs, body)?;
    Ok(write(alloc, Command::QueryDelete { id })?)
}

#[tactic(auto, unfolding(crate::specs::PreparedQueries::query_execute))]
fn execute(alloc: Global, part: &[u8], pairs: &[Pair], body: &[u8]) -> Result<Request, RouteError>
    ensures { Gives result (query_execute part.now pairs.now body.now) }
{
    let name = decoded(alloc, part, Parameter::IdOrName)?;
    center(pairs)?;
    let mode = mode(pairs)?;
    unfiltered(pairs)?;
    let limit = number(pairs, Parameter::Limit)?;
    short(MOST, body)?;
    Ok(Request::Execute { name, limit, mode })
}

/// A request on all queries.
fn all_queries(
    alloc: Global,
    method: &[u8],
    pairs: &[Pair],
    body: &[u8],
) -> Result<Request, RouteError>
    ensures { Gives result (get_post (whole_read Query.Queries) query_create method.now pairs.now body.now) }
{
    if is(method, "GET") {
        whole(alloc, Query::Queries, pairs, body)
    } else if is(method, "POST") {
        create(alloc, pairs, body)
    } else {
        Err(RouteError::Method(Allow::GetPost))
    }
}

/// A request on a query.
fn one_query(
    alloc: Global,
    part: &[u8],
    method: &[u8],
    pairs: &[Pair],
    body: &[u8],
) -> Result<Request, RouteError>
    ensures { Gives result (delete_get_put (query_delete part.now) (query_info part.now) (query_update part.now) method.now pairs.now body.now) }
{
    if is(method, "DELETE") {
        delete(alloc, part, pairs, body)
    } else if is(method, "GET") {
        info(alloc, part, pairs, body)
    } else if is(method, "PUT") {
        update(alloc, part, pairs, body)
    } else {
        Err(RouteError::Method(Allow::DeleteGetPut))
    }
}

/// The methods of prepared queries' paths.
#[tactic(auto, unfolding(crate::specs::Routes::query))]
pub(crate) fn query(
    alloc: Global,
    route: QueryRoute,
    part: &[u8],
    method: &[u8],
    pairs: &[Pair],
    body: &[u8],
) -> Result<Request, RouteError>
    ensures { Gives result (routes.query route part.now method.now pairs.now body.now) }
{
    match route {
        QueryRoute::All => all_queries(alloc, method, pairs, body),
        QueryRoute::One => one_query(alloc, part, method, pairs, body),
        QueryRoute::Execute => {
            get_only(method)?;
            execute(alloc, part, pairs, body)
        }
    }
}
