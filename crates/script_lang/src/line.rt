ghost use Rattle.std.specs.Prelude.{◌≡◌, Ok, Err, None, IfOk, option_map};
ghost use Rattle.std.specs.Option.{option_copied};
ghost use Rattle.filter_expr.specs.Expressions.{expression_of};
ghost use Rattle.http_routes.specs.Filters.{filter_at};
ghost use Rattle.script_lang.specs.Answers.{UnlessMemory, line_in};
ghost use Rattle.script_lang.specs.Lines as spec;
ghost use Rattle.script_lang.specs.Numbers.{one_number as one_number_in};
ghost use Rattle.script_lang.specs.Words.{words_in};
ghost use Rattle.script_lang.specs.declared.form.Form.TheVariants as the_form;

use crate::bad_line::BadLine;
use crate::form::{Form, form_of};
use crate::numbers::{Bounds, number_in, one_number, two_numbers};
use crate::requests::asked_of;
use crate::words::{cut, is_nothing, last_word, next_word};
use cat_model::{Draw, Event, Shared};
use filter_expr::Filter;
use http_routes::{Routed, Routes};
use std::alloc::Global;

/// What a line of a script says.
#[derive(Debug, Drop)]
pub enum Line {
    /// The line is empty, or begins with `;`.
    Nothing,
    /// Opens a cluster of so many servers and agents. The seed is the first half of each request's draw.
    Cluster {
        servers: u32,
        agents: u32,
        seed: u64,
    },
    Event(Event),
    /// Messages are delivered and then lost, the lowest first: so many, or until none is left.
    Settle(u32),
}

/// A line as it is read.
#[derive(Debug, Drop)]
pub struct ReadLine {
    pub line: Line,
    /// The filter of the request that it asks for, if that has one.
    pub filter: Option<Filter>,
}

const ANY_32: Bounds = Bounds {
    least: 0,
    most: 4_294_967_295,
};

const ANY_64: Bounds = Bounds {
    least: 0,
    most: 18_446_744_073_709_551_615,
};

const SERVERS: Bounds = Bounds { least: 1, most: 7 };

const AGENTS: Bounds = Bounds { least: 0, most: 64 };

const TICK_MS: Bounds = Bounds {
    least: 1,
    most: 86_400_000,
};

const MESSAGES: Bounds = Bounds {
    least: 1,
    most: 1_000_000,
};

const CALLS: Bounds = Bounds {
    least: 1,
    most: 4_294_967_295,
};

// `cluster S A SEED`
#[tactic(auto, using(crate::proofs::Shapes::not_three))]
fn opening(words: Option<&[u8]>) -> Result<Line, BadLine>
    ensures { result ≡ spec.opening (words_in (option_copied words.entry)) }
{
    let (servers, words) = next_word(words)?;
    let (agents, words) = next_word(words)?;
    let seed = last_word(words)?;
    if servers.is_empty() || agents.is_empty() || seed.is_empty() {
        return Err(BadLine::UnknownLine);
    }
    let servers = number_in(SERVERS, servers)?;
    let agents = number_in(AGENTS, agents)?;
    let seed = number_in(ANY_64, seed)?;
    Ok(Line::Cluster {
        servers: servers as u32,
        agents: agents as u32,
        seed,
    })
}

// The request of an agent, with its draw.
fn asks(
    alloc: Global,
    routes: &Routes,
    number: u64,
    seed: u64,
    agent: u32,
    method: &[u8],
    target: &[u8],
    rest: Option<&[u8]>,
) -> Result<ReadLine, BadLine>
    ensures line { UnlessMemory (line_in result) (spec.asks number seed agent method.now target.now (option_copied rest.entry)) }
    ensures filter { IfOk result (λ r. option_map expression_of r.filter ≡ filter_at target.now) }
{
    let Routed { asked, filter } = asked_of(alloc, routes, method, target, rest)?;
    let line = Line::Event(Event::Ask {
        agent,
        asked: Shared::new(alloc, asked)?,
        draw: Draw {
            hi: seed,
            lo: number,
        },
    });
    Ok(ReadLine { line, filter })
}

// `http A METHOD TARGET`, with more for a body
fn asking(
    alloc: Global,
    routes: &Routes,
    number: u64,
    seed: u64,
    words: Option<&[u8]>,
) -> Result<ReadLine, BadLine>
    ensures line { UnlessMemory (line_in result) (spec.asking number seed (words_in (option_copied words.entry))) }
    ensures filter { IfOk result (λ r. option_map expression_of r.filter ≡ spec.filter_asked (words_in (option_copied words.entry))) }
{
    let (agent, words) = next_word(words)?;
    let (method, words) = next_word(words)?;
    let (target, rest) = next_word(words)?;
    let agent = number_in(ANY_32, agent)?;
    asks(
        alloc,
        routes,
        number,
        seed,
        agent as u32,
        method,
        target,
        rest,
    )
}

// The number of a server or an agent.
fn one_of_32(words: Option<&[u8]>) -> Result<u32, BadLine>
    ensures { result ≡ one_number_in spec.any32 (words_in (option_copied words.entry)) }
{
    let number = one_number(ANY_32, words)?;
    Ok(number as u32)
}

// `tick S D`
fn tick(words: Option<&[u8]>) -> Result<Line, BadLine>
    ensures { result ≡ spec.said 0 0 the_form.Tick (words_in (option_copied words.entry)) }
{
    let (server, ms) = two_numbers(ANY_32, TICK_MS, words)?;
    Ok(Line::Event(Event::Tick(server as u32, ms)))
}

// `failkeep S N`
fn fail_keep(words: Option<&[u8]>) -> Result<Line, BadLine>
    ensures { result ≡ spec.said 0 0 the_form.FailKeep (words_in (option_copied words.entry)) }
{
    let (server, nth) = two_numbers(ANY_32, CALLS, words)?;
    Ok(Line::Event(Event::FailKeep(server as u32, nth as u32)))
}

// `settle N`
fn settle(words: Option<&[u8]>) -> Result<Line, BadLine>
    ensures { result ≡ spec.said 0 0 the_form.Settle (words_in (option_copied words.entry)) }
{
    let most = one_number(MESSAGES, words)?;
    Ok(Line::Settle(most as u32))
}

// `agenttick A D`
fn agent_tick(words: Option<&[u8]>) -> Result<Line, BadLine>
    ensures { result ≡ spec.said 0 0 the_form.AgentTick (words_in (option_copied words.entry)) }
{
    let (agent, ms) = two_numbers(ANY_32, TICK_MS, words)?;
    Ok(Line::Event(Event::AgentTick(agent as u32, ms)))
}

// A line that has no filter.
fn without_filter(line: Line) -> ReadLine
    ensures line { result.line ≡ line }
    ensures filter { option_map expression_of result.filter ≡ None }
{
    ReadLine { line, filter: None }
}

// A line of an event other than a request.
fn of_event(event: Event) -> ReadLine
    ensures line { result.line ≡ Line.Event event }
    ensures filter { option_map expression_of result.filter ≡ None }
{
    without_filter(Line::Event(event))
}

// A line of the form with these words after the first one.
fn said(
    alloc: Global,
    routes: &Routes,
    number: u64,
    seed: u64,
    form: Form,
    words: Option<&[u8]>,
) -> Result<ReadLine, BadLine>
    ensures line { UnlessMemory (line_in result) (spec.said number seed form (words_in (option_copied words.entry))) }
    ensures filter { IfOk result (λ r. option_map expression_of r.filter ≡ spec.filter_said form (words_in (option_copied words.entry))) }
{
    match form {
        Form::Cluster => Ok(without_filter(opening(words)?)),
        Form::Timeout => Ok(of_event(Event::Timeout(one_of_32(words)?))),
        Form::Beat => Ok(of_event(Event::Beat(one_of_32(words)?))),
        Form::Restart => Ok(of_event(Event::Restart(one_of_32(words)?))),
        Form::Tick => Ok(without_filter(tick(words)?)),
        Form::AgentTick => Ok(without_filter(agent_tick(words)?)),
        Form::Deliver => Ok(of_event(Event::Deliver(one_number(ANY_64, words)?))),
        Form::Drop => Ok(of_event(Event::Drop(one_number(ANY_64, words)?))),
        Form::Settle => Ok(without_filter(settle(words)?)),
        Form::FailKeep => Ok(without_filter(fail_keep(words)?)),
        Form::Sync => Ok(of_event(Event::Sync(one_of_32(words)?))),
        Form::Http => asking(alloc, routes, number, seed, words),
    }
}

/// Whether the line's first word is `cluster`. The first line that says something is refused as `ExpectedCluster` where
/// it isn't, and a later one as `UnknownLine` where it is, whatever else is wrong with them.
pub fn opens_cluster(line: &[u8]) -> bool
    ensures { result ≡ spec.opens_cluster line.now }
{
    let (name, _) = cut(line);
    name == b"cluster".as_slice()
}

/// What a line of a script with this seed says, where the next request has this number, and the filter of its request; or
/// why it's refused: as an `UnknownLine`, a `BadNumber` or a `BadRequestLine`. The other reasons hang on the lines before
/// it and on what the cluster takes.
pub fn read_line(
    alloc: Global,
    routes: &Routes,
    line: &[u8],
    number: u64,
    seed: u64,
) -> Result<ReadLine, BadLine>
    ensures line { UnlessMemory (line_in result) (spec.line_of number seed line.now) }
    ensures filter { IfOk result (λ r. option_map expression_of r.filter ≡ spec.filter_of_line line.now) }
{
    if is_nothing(line) {
        return Ok(without_filter(Line::Nothing));
    }
    let (name, words) = cut(line);
    match form_of(name) {
        Some(form) => said(alloc, routes, number, seed, form, words),
        None => Err(BadLine::UnknownLine),
    }
}
