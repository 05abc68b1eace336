//! The filters that six routes read.

ghost use Rattle.std.specs.Prelude.{◌≡◌, IfOk, not, filter, option_map, codes};
ghost use Rattle.filter_expr.specs.Expressions.{expression_of};
ghost use Rattle.http_routes.specs.Filters as spec;
ghost use Rattle.http_routes.specs.Params.{is_named};

use crate::Parameter;
use crate::params::{Pair, first};
use crate::table::{CatalogRoute, HealthRoute, Route};
use cat_model::{List, Memory};
use filter_expr::{Filter, FilterFault, Shape, parse};
use std::alloc::Global;

fn catalog_shape(route: CatalogRoute) -> Option<Shape>
    ensures { result ≡ spec.catalog_shape route }
{
    match route {
        CatalogRoute::Nodes => Some(Shape::Node),
        CatalogRoute::Service => Some(Shape::CatalogService),
        CatalogRoute::Register
        | CatalogRoute::Deregister
        | CatalogRoute::Upgrade
        | CatalogRoute::Services
        | CatalogRoute::Node => None,
    }
}

fn health_shape(route: HealthRoute) -> Shape
    ensures { result ≡ spec.health_shape route }
{
    match route {
        HealthRoute::Node | HealthRoute::Checks | HealthRoute::State => Shape::Check,
        HealthRoute::Service => Shape::Health,
    }
}

/// The shape of the elements of a route's list, where the route reads filters of them.
fn shape_of(route: Route) -> Option<Shape>
    ensures { result ≡ spec.shape_of route }
{
    match route {
        Route::Catalog(route) => catalog_shape(route),
        Route::Health(route) => Some(health_shape(route)),
        Route::Kv | Route::Txn | Route::Session(_) | Route::Query(_) | Route::Agent(_) => None,
    }
}

fn filter_in(alloc: Global, shape: Option<Shape>, pairs: &[Pair]) -> Result<Option<Filter>, Memory>
    ensures { IfOk result (λ filter. option_map expression_of filter ≡ spec.filter_in shape pairs.now) }
{
    let (Some(shape), Some(text)) = (shape, first(pairs, Parameter::Filter.text())) else {
        return Ok(None);
    };
    match parse(alloc, text, shape) {
        Ok(filter) => Ok(Some(filter)),
        Err(FilterFault::Bad) => Ok(None),
        Err(FilterFault::Memory) => Err(Memory),
    }
}

/// The filter among a route's parameters, if the route reads one there.
pub(crate) fn filter_of(
    alloc: Global,
    route: Route,
    pairs: &[Pair],
) -> Result<Option<Filter>, Memory>
    ensures { IfOk result (λ filter. option_map expression_of filter ≡ spec.filter_in (spec.shape_of route) pairs.now) }
{
    filter_in(alloc, shape_of(route), pairs)
}

fn is_no_filter(pair: &Pair) -> bool
    ensures { result ≡ not (is_named (codes "filter") pair.now) }
{
    pair.name.as_str() != "filter"
}

fn without_filter(pairs: List<Pair>) -> List<Pair>
    ensures { result ≡ filter (λ pair. not (is_named (codes "filter") pair)) pairs }
{
    let mut left = pairs.into_vec();
    left.retain(|pair| is_no_filter(pair));
    List::from(left)
}

/// The parameters without a filter that was read.
pub(crate) fn left_by(filter: &Option<Filter>, pairs: List<Pair>) -> List<Pair>
    ensures { result ≡ spec.left_by (option_map expression_of filter.now) pairs }
{
    match filter {
        None => pairs,
        Some(_) => without_filter(pairs),
    }
}
