ghost use Rattle.std.specs.Prelude.{◌≡◌, suc, ◌+◌, ℕ, List, IfOk, Ok, None, option_map, if◌then◌else◌};
ghost use Rattle.filter_expr.specs.Expressions.{expression_of};
ghost use Rattle.script_lang.specs.Answers.{line_in};
ghost use Rattle.script_lang.specs.Lines.{filter_of_line, line_of};
ghost use Rattle.run_rules.specs.Lines.{Said};
ghost use Rattle.script_player.specs.Filters.{is_request};
ghost use Rattle.script_player.specs.Script.{said, said_of as said_by_words, bad_of as bad_for};
ghost use Rattle.script_player.specs.Stage.{IsFine, IsWorded, IsRead, filter_said};

use cat_model::{Event, Memory};
use cluster_interface::ClusterInterface;
use filter_expr::Filter;
use http_routes::Routes;
use run_rules::Misfit;
use script_lang::{BadLine, Line, ReadLine, opens_cluster, read_line};
use std::alloc::Global;

/// What a line after the opening says: nothing, an event, a settling of at most so many messages, or why it is refused.
#[derive(Debug, Drop)]
pub enum Says {
    Nothing,
    Makes(Event),
    Settles(u32),
    Refuses(BadLine),
}

/// What a line says, with the filter of its request.
#[derive(Debug, Drop)]
pub struct SaidLine {
    pub says: Says,
    pub filter: Option<Filter>,
}

/// What the line says, or why it is refused, where the next request has this number.
#[tactic(auto, using(crate::proofs::Fine::line_fine))]
pub fn answer(
    alloc: Global,
    routes: &Routes,
    line: &[u8],
    number: u64,
    seed: u64,
) -> Result<Result<ReadLine, BadLine>, Memory>
    ensures value { IfOk result (λ r. line_in r ≡ line_of number seed line.now) }
    ensures fine { IfOk result (λ r. IsFine (line_in r)) }
    ensures filter { IfOk result (λ r. IfOk r (λ read. option_map expression_of read.filter ≡ filter_of_line line.now)) }
{
    match read_line(alloc, routes, line, number, seed) {
        Ok(says) => Ok(Ok(says)),
        Err(BadLine::Memory) => Err(Memory),
        Err(why) => Ok(Err(why)),
    }
}

// What a line says that has no filter.
fn unfiltered(says: Says) -> SaidLine
    ensures says { result.says ≡ says }
    ensures filter { option_map expression_of result.filter ≡ None }
{
    SaidLine { says, filter: None }
}

// The filter of an event, if that is a request.
fn of_request(event: &Event, filter: Option<Filter>) -> Option<Filter>
    ensures { option_map expression_of result ≡ (if is_request event.now then option_map expression_of filter else None) }
{
    match event {
        Event::Ask { .. } => filter,
        _ => None,
    }
}

// What a line after the opening says that was read.
fn said_of(read: ReadLine) -> SaidLine
    requires { IsFine (Ok read.line) }
    ensures says { IsWorded (said_by_words (Ok read.line)) result.says }
    ensures filter { (line : List ℕ) → option_map expression_of read.filter ≡ filter_of_line line → option_map expression_of result.filter ≡ filter_said (said_by_words (Ok read.line)) line }
{
    let ReadLine { line, filter } = read;
    match line {
        Line::Nothing => unfiltered(Says::Nothing),
        Line::Cluster { .. } => unfiltered(Says::Refuses(BadLine::UnknownLine)),
        Line::Event(event) => {
            let filter = of_request(&event, filter);
            SaidLine {
                says: Says::Makes(event),
                filter,
            }
        }
        Line::Settle(most) => unfiltered(Says::Settles(most)),
    }
}

// What the words of a line after the opening say.
fn worded(
    alloc: Global,
    routes: &Routes,
    line: &[u8],
    number: u64,
    seed: u64,
) -> Result<SaidLine, Memory>
    ensures says { IfOk result (λ s. IsWorded (said seed number line.now) s.says) }
    ensures filter { IfOk result (λ s. option_map expression_of s.filter ≡ filter_said (said seed number line.now) line.now) }
{
    if opens_cluster(line) {
        return Ok(unfiltered(Says::Refuses(BadLine::UnknownLine)));
    }
    match answer(alloc, routes, line, number, seed)? {
        Ok(read) => Ok(said_of(read)),
        Err(why) => Ok(unfiltered(Says::Refuses(why))),
    }
}

// The reason of an event that doesn't fit.
fn bad_of(misfit: Misfit) -> BadLine
    ensures { result ≡ bad_for misfit }
{
    match misfit {
        Misfit::NoServer => BadLine::NoSuchServer,
        Misfit::NoAgent => BadLine::NoSuchAgent,
        Misfit::NoMessage => BadLine::NoSuchMessage,
        Misfit::Clock => BadLine::ClockTooFar,
    }
}

/// What a line after the opening says where the servers stand so: an event that doesn't fit is refused.
pub fn said_by<S: ClusterInterface>(
    alloc: Global,
    routes: &Routes,
    servers: &S,
    seed: u64,
    line: &[u8],
) -> Result<SaidLine, Memory>
    ensures says { IfOk result (λ s. IsRead (S.state servers.now) (said seed (suc (S.state servers.now).asked) line.now) s.says) }
    ensures filter { IfOk result (λ s. option_map expression_of s.filter ≡ filter_said (said seed (suc (S.state servers.now).asked) line.now) line.now) }
{
    let number = next_number(servers)?;
    match worded(alloc, routes, line, number, seed) {
        Ok(SaidLine { says, filter }) => Ok(SaidLine {
            says: fitted(servers, says),
            filter,
        }),
        Err(Memory) => Err(Memory),
    }
}

/// The number of the next request.
pub fn next_number<S: ClusterInterface>(servers: &S) -> Result<u64, Memory>
    ensures { IfOk result (λ number. number ≡ (S.state servers.now).asked + 1) }
{
    match servers.asked().checked_add(1) {
        Some(number) => Ok(number),
        None => Err(Memory),
    }
}

// What the words say where the servers stand so.
#[tactic(auto, using(crate::proofs::Fine::misfit_told))]
fn fitted<S: ClusterInterface>(servers: &S, says: Says) -> Says
    ensures { (s : Said) → IsWorded s says → IsRead (S.state servers.now) s result }
{
    match says {
        Says::Nothing => Says::Nothing,
        Says::Makes(event) => match servers.fits(&event) {
            Ok(()) => Says::Makes(event),
            Err(misfit) => Says::Refuses(bad_of(misfit)),
        },
        Says::Settles(most) => Says::Settles(most),
        Says::Refuses(why) => Says::Refuses(why),
    }
}
