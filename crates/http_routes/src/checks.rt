//! What is tested of many requests.

ghost use Rattle.std.specs.Prelude.{◌≡◌, IfOk};
ghost use Rattle.cat_model.specs.declared.request.Request.TheVariants.{Agent as OnAgent, Write};
ghost use Rattle.json_bodies.specs.Registers.{is_other_center};
ghost use Rattle.http_routes.specs.Checks.{center_at, mode_at, most, plain_at, unfiltered_at, wait_at};
ghost use Rattle.http_routes.specs.Checks as spec;
ghost use Rattle.http_routes.specs.Errors.{Gives};
ghost use Rattle.http_routes.specs.Errors as errors;

use crate::params::{Pair, first, is_on, is_there, number, text};
use crate::{Parameter, RouteError};
use cat_model::{AgentOp, Command, Memory, Mode, Query, Request, Shared};
use json_bodies::duration;
use std::alloc::Global;

/// How a read is to be answered: how fresh, above which index, and after how many milliseconds at most.
#[derive(Clone, Copy, Debug)]
pub struct Reading {
    pub mode: Mode,
    pub min: u64,
    pub wait_ms: u64,
}

/// The most bytes of a body.
pub(crate) const MOST: usize = 1_048_576;

/// Refuses the parameter where the test holds.
pub(crate) fn refuse_if(wrong: bool, parameter: Parameter) -> Result<(), RouteError>
    ensures { Gives result (errors.refuse_if wrong parameter) }
{
    if wrong {
        Err(RouteError::Target(parameter))
    } else {
        Ok(())
    }
}

fn is_other(center: &str) -> bool
    ensures { result ≡ is_other_center center.now }
{
    !center.is_empty() && center != "dc1"
}

/// Refuses another datacenter.
#[tactic(auto, unfolding(crate::specs::Checks::center_at))]
pub(crate) fn center(pairs: &[Pair]) -> Result<(), RouteError>
    ensures { Gives result (center_at pairs.now) }
{
    refuse_if(is_other(text(pairs, "dc")), Parameter::Dc)
}

/// How fresh an answer is to be.
#[tactic(auto, unfolding(crate::specs::Checks::mode_at))]
pub(crate) fn mode(pairs: &[Pair]) -> Result<Mode, RouteError>
    ensures { Gives result (mode_at pairs.now) }
{
    match (is_on(pairs, "stale"), is_on(pairs, "consistent")) {
        (true, true) => Err(RouteError::Target(Parameter::Mode)),
        (true, false) => Ok(Mode::Stale),
        (false, true) => Ok(Mode::Consistent),
        (false, false) => Ok(Mode::Default),
    }
}

/// The most milliseconds that a read waits, or 0.
#[tactic(auto, unfolding(crate::specs::Checks::wait_at))]
fn wait(pairs: &[Pair]) -> Result<u64, RouteError>
    ensures { Gives result (wait_at pairs.now) }
{
    match first(pairs, Parameter::Wait.text()) {
        None => Ok(0),
        Some(value) => match duration(value) {
            Some(ms) => Ok(ms),
            None => Err(RouteError::Target(Parameter::Wait)),
        },
    }
}

/// Refuses a filter that was not read.
#[tactic(auto, unfolding(crate::specs::Checks::unfiltered_at))]
pub(crate) fn unfiltered(pairs: &[Pair]) -> Result<(), RouteError>
    ensures { Gives result (unfiltered_at pairs.now) }
{
    refuse_if(is_there(pairs, "filter"), Parameter::Filter)
}

/// Refuses a body of more bytes than the limit.
#[tactic(auto, unfolding(crate::specs::Checks::short))]
pub(crate) fn short(limit: usize, body: &[u8]) -> Result<(), RouteError>
    ensures { Gives result (spec.short limit body.now) }
{
    if body.len() <= limit {
        Ok(())
    } else {
        Err(RouteError::TooLarge)
    }
}

/// The tests of a request that reads no mode, up to its own parameters.
#[tactic(auto, unfolding(crate::specs::Checks::plain_at))]
pub(crate) fn plain_parameters(pairs: &[Pair]) -> Result<(), RouteError>
    ensures { Gives result (plain_at pairs.now) }
{
    center(pairs)?;
    unfiltered(pairs)
}

/// The tests of a request that reads no mode and no parameter of its own, up to its body's fields.
#[tactic(auto, unfolding(crate::specs::Checks::plain))]
pub(crate) fn plain(pairs: &[Pair], body: &[u8]) -> Result<(), RouteError>
    ensures { Gives result (spec.plain pairs.now body.now) }
{
    plain_parameters(pairs)?;
    short(MOST, body)
}

/// The tests of a read.
#[tactic(auto, unfolding(crate::specs::Checks::reading))]
pub(crate) fn reading_of(pairs: &[Pair], body: &[u8]) -> Result<Reading, RouteError>
    ensures { Gives result (spec.reading pairs.now body.now) }
{
    center(pairs)?;
    let mode = mode(pairs)?;
    let min = number(pairs, Parameter::Index)?;
    let wait_ms = wait(pairs)?;
    unfiltered(pairs)?;
    short(MOST, body)?;
    Ok(Reading { mode, min, wait_ms })
}

/// The read of a query.
pub(crate) fn read(alloc: Global, query: Query, reading: Reading) -> Result<Request, Memory>
    ensures { IfOk result (λ request. request ≡ spec.read query reading) }
{
    Ok(Request::Read {
        query: Shared::new(alloc, query)?,
        mode: reading.mode,
        min: reading.min,
        wait_ms: reading.wait_ms,
        raw: false,
    })
}

/// The write of a command.
pub(crate) fn write(alloc: Global, command: Command) -> Result<Request, Memory>
    ensures { IfOk result (λ request. request ≡ Write command) }
{
    Ok(Request::Write {
        command: Shared::new(alloc, command)?,
    })
}

/// The request that an agent does this with its own rows.
pub(crate) fn on_agent(alloc: Global, op: AgentOp) -> Result<Request, Memory>
    ensures { IfOk result (λ request. request ≡ OnAgent op) }
{
    Ok(Request::Agent(Shared::new(alloc, op)?))
}
