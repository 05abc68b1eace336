//! What a request asks for, by its path's route.

ghost use Rattle.std.specs.Prelude.{◌≡◌, IfOk, Result, option_map};
ghost use Rattle.filter_expr.specs.Expressions.{expression_of};
ghost use Rattle.http_routes.specs.Errors.{Gives};
ghost use Rattle.http_routes.specs.Filters.{filter_at, filter_in, pairs_left, shape_of};
ghost use Rattle.http_routes.specs.Params.{pairs_of};
ghost use Rattle.http_routes.specs.Routers.{the_router};
ghost use Rattle.http_routes.specs.Routes.{asked_of, methods, route_of};

use crate::RouteError;
use crate::agent::agent;
use crate::catalog::catalog;
use crate::filters::{filter_of, left_by};
use crate::health::health;
use crate::kv::{kv, transaction};
use crate::method::put_only;
use crate::params::{Pair, pairs_in};
use crate::query::query;
use crate::router::{Entry, find, routed};
use crate::session::session;
use crate::table::Route;
use crate::target::split;
use cat_model::{Asked, Memory, Request};
use filter_expr::Filter;
use matchit::Router;
use std::alloc::Global;
use std::marker::Model;

/// What a method of the route asks for.
#[tactic(auto, unfolding(crate::specs::Routes::methods))]
fn asked(
    alloc: Global,
    route: Route,
    part: &[u8],
    method: &[u8],
    pairs: &[Pair],
    body: &[u8],
) -> Result<Request, RouteError>
    ensures { Gives result (methods route part.now method.now pairs.now body.now) }
{
    match route {
        Route::Kv => kv(alloc, part, method, pairs, body),
        Route::Txn => {
            put_only(method)?;
            transaction(alloc, pairs, body)
        }
        Route::Catalog(route) => catalog(alloc, route, part, method, pairs, body),
        Route::Health(route) => health(alloc, route, part, method, pairs, body),
        Route::Session(route) => session(alloc, route, part, method, pairs, body),
        Route::Query(route) => query(alloc, route, part, method, pairs, body),
        Route::Agent(route) => agent(alloc, route, part, method, pairs, body),
    }
}

/// What is asked for, or the refusal of what is not.
#[tactic(auto, using(crate::proofs::Refused::refused_is))]
fn asked_by(alloc: Global, request: Result<Request, RouteError>) -> Result<Asked, Memory>
    ensures { IfOk result (λ asked. (read : Result Request RouteError) → Gives request read → asked ≡ asked_of read) }
{
    match request {
        Ok(request) => Ok(Asked::Good(request)),
        Err(why) => Ok(Asked::Bad(why.refusal(alloc)?)),
    }
}

/// What a target asks for, and the filter through which the list is shown that it is answered with.
#[derive(Debug, Drop)]
pub struct Routed {
    pub asked: Asked,
    /// Only the targets of six routes have one.
    pub filter: Option<Filter>,
}

/// What a method of the route asks for by this query, and the query's filter.
fn routed_to(
    alloc: Global,
    route: Route,
    part: &[u8],
    method: &[u8],
    query: &[u8],
    body: &[u8],
) -> Result<Routed, Memory>
    ensures asked { IfOk result (λ r. r.asked ≡ asked_of (methods route part.now method.now (pairs_left route (pairs_of query.now)) body.now)) }
    ensures filter { IfOk result (λ r. option_map expression_of r.filter ≡ filter_in (shape_of route) (pairs_of query.now)) }
{
    let pairs = pairs_in(alloc, query)?;
    let filter = filter_of(alloc, route, pairs.as_slice())?;
    let pairs = left_by(&filter, pairs);
    let request = asked(alloc, route, part, method, pairs.as_slice(), body);
    Ok(Routed {
        asked: asked_by(alloc, request)?,
        filter,
    })
}

/// The table of paths, ready to look up in. To make it takes many times as long as a look-up.
#[derive(Drop)]
pub struct Routes {
    router: Router<Entry>,
}

impl Model for Routes {
    ghost use Rattle.std.specs.Prelude.{◌≡◌};
    ghost use Rattle.http_routes.specs.Routers.{Routed, the_router};

    ghost Value = { Routed };

    ghost view = { λ routes. routes.router };

    ghost invariant = { λ routes. routes.router ≡ the_router };
}

impl Routes {
    pub fn new(alloc: Global) -> Result<Routes, Memory>
        ensures { IfOk result (λ routes. routes ≡ the_router) }
    {
        Ok(Routes {
            router: routed(alloc)?,
        })
    }

    /// What a method, a target and a body ask for, the request or its refusal, with the target's filter. The target is a
    /// path and maybe `?` and a query, as the request line has them (RFC 9112, section 3.2.1).
    #[tactic(auto, unfolding(crate::specs::Routes::route_of, crate::specs::Routes::request_of, crate::specs::Filters::filter_at))]
    pub fn route(
        &self,
        alloc: Global,
        method: &[u8],
        target: &[u8],
        body: &[u8],
    ) -> Result<Routed, Memory>
        ensures asked { IfOk result (λ r. r.asked ≡ route_of method.now target.now body.now) }
        ensures filter { IfOk result (λ r. option_map expression_of r.filter ≡ filter_at target.now) }
    {
        let (path, query) = split(target, b'?');
        match find(alloc, &self.router, path)? {
            Some((route, part)) => routed_to(alloc, route, part, method, query, body),
            None => Ok(Routed {
                asked: asked_by(alloc, Err(RouteError::NoRoute))?,
                filter: None,
            }),
        }
    }
}

/// The same with a table of its own.
pub fn route(alloc: Global, method: &[u8], target: &[u8], body: &[u8]) -> Result<Routed, Memory>
    ensures asked { IfOk result (λ r. r.asked ≡ route_of method.now target.now body.now) }
    ensures filter { IfOk result (λ r. option_map expression_of r.filter ≡ filter_at target.now) }
{
    Routes::new(alloc)?.route(alloc, method, target, body)
}
