//! The router of the table of paths.

ghost use Rattle.std.specs.Prelude.{◌≡◌, ◌+◌, ◌-◌, ◌≤◌, true, length, take, drop, map, option_map, IfOk, OnOk};
ghost use Rattle.std.specs.String.{string_bytes};
ghost use Rattle.http_routes.specs.Paths.{found};
ghost use Rattle.http_routes.specs.Routers.{are_new, entry_of, is_new, rows_of, the_router, with_route, with_rows};
ghost use Rattle.http_routes.specs.Routers as spec;

use crate::table::{Route, TABLE};
use crate::target::split;
use matchit::{InsertError, Router};
use std::alloc::{AllocError, Global};

/// A route, and how many bytes of its paths stand before and behind the parameter.
#[derive(Clone, Copy, Debug, Drop)]
pub(crate) struct Entry {
    pub route: Route,
    pub front: usize,
    pub back: usize,
}

/// The entry of a row.
fn entry_for(pattern: &str, route: Route) -> Entry
    ensures { result ≡ entry_of (pattern.now, route) }
{
    let (front, _) = split(pattern.as_bytes(), b'{');
    let (_, back) = split(pattern.as_bytes(), b'}');
    Entry {
        route,
        front: front.len(),
        back: back.len(),
    }
}

/// Adds a route that conflicts with none in the router.
fn add(router: &mut Router<Entry>, pattern: &str, entry: Entry) -> Result<(), AllocError>
    requires { is_new pattern.now router.old ≡ true }
    ensures { OnOk result (router.new ≡ with_route pattern.now entry router.old) }
{
    match router.insert(pattern, entry) {
        Ok(()) => Ok(()),
        Err(InsertError::OutOfMemory) => Err(AllocError),
        Err(_) => unreachable!(),
    }
}

/// Adds these rows, of which none conflicts with another or with a route in the router.
fn add_rows(router: &mut Router<Entry>, rows: &[(&str, Route)]) -> Result<(), AllocError>
    requires { are_new (rows_of rows.now) router.old ≡ true }
    ensures { OnOk result (router.new ≡ with_rows (rows_of rows.now) router.old) }
{
    'rows: for row in rows {
        add(router, row.0, entry_for(row.0, row.1))?;
    }
    Ok(())
}

/// The router of the table.
pub(crate) fn routed(alloc: Global) -> Result<Router<Entry>, AllocError>
    ensures { IfOk result (λ router. router ≡ the_router) }
{
    let mut router = Router::new(alloc);
    add_rows(&mut router, &TABLE)?;
    Ok(router)
}

/// The path as a text, in which `?` stands for each byte that is no ASCII.
fn shown(alloc: Global, path: &[u8]) -> Result<String, AllocError>
    ensures { IfOk result (λ text. string_bytes text ≡ map spec.shown path.now) }
{
    let mut text = String::new(alloc);
    'bytes: for byte in path {
        text.push(if byte.is_ascii() {
            char::from(*byte)
        } else {
            '?'
        })?;
    }
    Ok(text)
}

/// What stands between the front and the back.
fn between(path: &[u8], front: usize, back: usize) -> &[u8]
    requires { front + back ≤ length path.now }
    ensures { result.now ≡ take (length path.now - back - front) (drop front path.now) }
{
    &path[front..path.len() - back]
}

/// The route of a path, with its parameter.
#[tactic(auto, using(crate::proofs::Found::router_finds_none))]
pub(crate) fn find<'p>(
    alloc: Global,
    router: &Router<Entry>,
    path: &'p [u8],
) -> Result<Option<(Route, &'p [u8])>, AllocError>
    requires { router.now ≡ the_router }
    ensures { IfOk result (λ o. option_map (λ f. (f.0, f.1.now)) o ≡ found path.now) }
{
    let text = shown(alloc, path)?;
    match router.at(text.as_str()) {
        Ok(entry) => {
            let entry = *entry.value;
            Ok(Some((entry.route, between(path, entry.front, entry.back))))
        }
        Err(_) => Ok(None),
    }
}
