//! Requests on the catalog.

ghost use Rattle.http_routes.specs.Catalog.{node as node_read, service as service_read, whole as whole_read};
ghost use Rattle.http_routes.specs.Catalog as spec;
ghost use Rattle.http_routes.specs.Errors.{Gives, in_body};
ghost use Rattle.http_routes.specs.Routes as routes;
ghost use Rattle.json_bodies.specs.Deregisters.{deregister_of};
ghost use Rattle.json_bodies.specs.Registers.{register_of};

use crate::body::of_body;
use crate::checks::{plain, read, reading_of, write};
use crate::method::{get_only, put_only};
use crate::params::{Pair, all};
use crate::table::CatalogRoute;
use crate::target::decoded;
use crate::{Parameter, RouteError};
use cat_model::{Command, Query, Request};
use json_bodies::{read_deregister, read_register};
use std::alloc::Global;

fn registration(alloc: Global, body: &[u8]) -> Result<Command, RouteError>
    ensures { Gives result (in_body (register_of body.now)) }
{
    of_body(read_register(alloc, body))
}

fn deregistration(alloc: Global, body: &[u8]) -> Result<Command, RouteError>
    ensures { Gives result (in_body (deregister_of body.now)) }
{
    of_body(read_deregister(alloc, body))
}

#[tactic(auto, unfolding(crate::specs::Catalog::register))]
fn register(alloc: Global, pairs: &[Pair], body: &[u8]) -> Result<Request, RouteError>
    ensures { Gives result (spec.register pairs.now body.now) }
{
    plain(pairs, body)?;
    let command = registration(alloc, body)?;
    Ok(write(alloc, command)?)
}

#[tactic(auto, unfolding(crate::specs::Catalog::deregister))]
fn deregister(alloc: Global, pairs: &[Pair], body: &[u8]) -> Result<Request, RouteError>
    ensures { Gives result (spec.deregister pairs.now body.now) }
{
    plain(pairs, body)?;
    let command = deregistration(alloc, body)?;
    Ok(write(alloc, command)?)
}

#[tactic(auto, unfolding(crate::specs::Catalog::upgrade))]
fn upgrade(alloc: Global, pairs: &[Pair], body: &[u8]) -> Result<Request, RouteError>
    ensures { Gives result (spec.upgrade pairs.now body.now) }
{
    plain(pairs, body)?;
    Ok(write(alloc, Command::Upgrade)?)
}

/// A read of a query without parameters.
#[tactic(auto, unfolding(crate::specs::Catalog::whole))]
pub(crate) fn whole(
    alloc: Global,
    query: Query,
    pairs: &[Pair],
    body: &[u8],
) -> Result<Request, RouteError>
    ensures { Gives result (whole_read query pairs.now body.now) }
{
    let reading = reading_of(pairs, body)?;
    Ok(read(alloc, query, reading)?)
}

#[tactic(auto, unfolding(crate::specs::Catalog::service))]
fn service(alloc: Global, part: &[u8], pairs: &[Pair], body: &[u8]) -> Result<Request, RouteError>
    ensures { Gives result (service_read part.now pairs.now body.now) }
{
    let name = decoded(alloc, part, Parameter::Name)?;
    let reading = reading_of(pairs, body)?;
    let tags = all(alloc, pairs, "tag")?;
    Ok(read(alloc, Query::Service { name, tags }, reading)?)
}

#[tactic(auto, unfolding(crate::specs::Catalog::node))]
fn node(alloc: Global, part: &[u8], pairs: &[Pair], body: &[u8]) -> Result<Request, RouteError>
    ensures { Gives result (node_read part.now pairs.now body.now) }
{
    let node = decoded(alloc, part, Parameter::Node)?;
    let reading = reading_of(pairs, body)?;
    Ok(read(alloc, Query::NodeServices { node }, reading)?)
}

/// The methods of the catalog's paths.
#[tactic(auto, unfolding(crate::specs::Routes::catalog))]
pub(crate) fn catalog(
    alloc: Global,
    route: CatalogRoute,
    part: &[u8],
    method: &[u8],
    pairs: &[Pair],
    body: &[u8],
) -> Result<Request, RouteError>
    ensures { Gives result (routes.catalog route part.now method.now pairs.now body.now) }
{
    match route {
        CatalogRoute::Register => {
            put_only(method)?;
            register(alloc, pairs, body)
        }
        CatalogRoute::Deregister => {
            put_only(method)?;
            deregister(alloc, pairs, body)
        }
        CatalogRoute::Upgrade => {
            put_only(method)?;
            upgrade(alloc, pairs, body)
        }
        CatalogRoute::Nodes => {
            get_only(method)?;
            whole(alloc, Query::Nodes, pairs, body)
        }
        CatalogRoute::Services => {
            get_only(method)?;
            whole(alloc, Query::Services, pairs, body)
        }
        CatalogRoute::Service => {
            get_only(method)?;
            service(alloc, part, pairs, body)
        }
        CatalogRoute::Node => {
            get_only(method)?;
            node(alloc, part, pairs, body)
        }
    }
}
