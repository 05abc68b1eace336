ghost use Rattle.std.specs.Prelude.{◌≡◌, ◌⊎◌, ◌<◌, ◌^◌, ◌+◌, IfOk, OnOk, OnErr, IfSome, MatchResult, MatchOption, None, Some, length, []};
ghost use Rattle.std.specs.Io.KnownBytes.{Appends};
ghost use Rattle.script_lang.specs.Text.{reason_text};
ghost use Rattle.run_rules.specs.Plays.{Whole};
ghost use Rattle.script_player.specs.Line.{lines_of};
ghost use Rattle.script_player.specs.Script as script;
ghost use Rattle.script_player.specs.Script.{script_of};
ghost use Rattle.cluster_interface.specs.Interface.{applied_lengths};
ghost use Rattle.script_player.specs.Run.{WritesPart, WholeRun, RefusedRun, PartOfRun, IsReportOf};
ghost use Rattle.script_player.specs.Stage.{CountsWrite, IsOpening, ending_of};
ghost use Rattle.script_player.specs.Text.{last_text, refused_text as refused_text_of};

use crate::openings::{NotOpened, Opened, open};
use crate::output::write_all;
use crate::refused::Refused;
use crate::report::Report;
use crate::stage::{Played, play};
use crate::start::start;
use crate::text::{end_text, refused_text};
use cat_model::{Bytes, List, Memory};
use cluster_interface::ClusterInterface;
use http_routes::Routes;
use outside::{KeepFail, MemKeeper, Sink};
use std::alloc::Global;

/// Plays the script on servers of the type `S` that are started as its first line says, writes what its lines give and
/// then a last line, and reports the run. There is no report where a line is refused: then the last line says which one,
/// and why. After a failed write, or for lack of memory, a first part of the text is written.
pub fn play_script<S: ClusterInterface<K = MemKeeper>, Si: Sink>(
    alloc: Global,
    sink: &mut Si,
    script: &[u8],
) -> Result<Option<Report>, KeepFail>
    requires { length script.now < 2 ^ 29 }
    ensures run { IfOk result (λ r. MatchOption r (RefusedRun (script_of script.now) (Si.held sink.old) (Si.held sink.new)) (WholeRun (script_of script.now) (Si.held sink.old) (Si.held sink.new))) }
    ensures part { OnErr result (Appends (Si.held sink.old) (Si.held sink.new) [] ⊎ PartOfRun (script_of script.now) (Si.held sink.old) (Si.held sink.new)) }
    ensures cause { MatchResult result (λ _. Si.faults sink.new ≡ Si.faults sink.old) (λ fail. CountsWrite fail (Si.faults sink.old) (Si.faults sink.new)) }
{
    let Ok(routes) = Routes::new(alloc) else {
        return Err(KeepFail::Memory);
    };
    match open(alloc, &routes, script) {
        Ok(opened) => play_opened::<S, Si>(alloc, &routes, sink, &opened),
        Err(NotOpened::Refused(why)) => match write_refused(alloc, sink, why) {
            Ok(()) => Ok(None),
            Err(fail) => Err(fail),
        },
        Err(NotOpened::Memory) => Err(KeepFail::Memory),
    }
}

// Plays the lines of an opened script.
fn play_opened<S: ClusterInterface<K = MemKeeper>, Si: Sink>(
    alloc: Global,
    routes: &Routes,
    sink: &mut Si,
    opened: &Opened,
) -> Result<Option<Report>, KeepFail>
    requires few { opened.now.next + length opened.now.lines.now < 2 ^ 30 }
    requires bounds { IsOpening opened.now.opening }
    ensures run { IfOk result (λ r. MatchOption r
        (RefusedRun (script.Opened opened.now.opening opened.now.next (lines_of opened.now.lines.now)) (Si.held sink.old) (Si.held sink.new))
        (WholeRun (script.Opened opened.now.opening opened.now.next (lines_of opened.now.lines.now)) (Si.held sink.old) (Si.held sink.new))) }
    ensures part { OnErr result (Appends (Si.held sink.old) (Si.held sink.new) [] ⊎ PartOfRun (script.Opened opened.now.opening opened.now.next (lines_of opened.now.lines.now)) (Si.held sink.old) (Si.held sink.new)) }
    ensures cause { MatchResult result (λ _. Si.faults sink.new ≡ Si.faults sink.old) (λ fail. CountsWrite fail (Si.faults sink.old) (Si.faults sink.new)) }
{
    let opening = opened.opening;
    let Ok(mut servers) = start::<S>(alloc, opening) else {
        return Err(KeepFail::Memory);
    };
    match play(
        alloc,
        routes,
        sink,
        &mut servers,
        opening.seed,
        opened.next,
        opened.lines,
    ) {
        Ok(played) => finish(alloc, sink, servers, played),
        Err(fail) => Err(fail),
    }
}

// Writes the last line of what was played, and reports it if no line was refused.
fn finish<S: ClusterInterface, Si: Sink>(
    alloc: Global,
    sink: &mut Si,
    servers: S,
    played: Played,
) -> Result<Option<Report>, KeepFail>
    ensures text { OnOk result (Appends (Si.held sink.old) (Si.held sink.new) (last_text (ending_of played.refused) (S.state servers))) }
    ensures part { OnErr result (WritesPart (Si.held sink.old) (Si.held sink.new) (last_text (ending_of played.refused) (S.state servers))) }
    ensures reports { IfOk result (λ r. IfSome r (IsReportOf (S.state servers) played.events)) }
    ensures refused { IfOk result (λ r. MatchOption r ((why : Refused) × (played.refused ≡ Some why)) (λ _. played.refused ≡ None)) }
    ensures cause { MatchResult result (λ _. Si.faults sink.new ≡ Si.faults sink.old) (λ fail. CountsWrite fail (Si.faults sink.old) (Si.faults sink.new)) }
{
    match played.refused {
        Some(why) => match write_refused(alloc, sink, why) {
            Ok(()) => Ok(None),
            Err(fail) => Err(fail),
        },
        None => match write_report(alloc, sink, servers, played.events) {
            Ok(report) => Ok(Some(report)),
            Err(fail) => Err(fail),
        },
    }
}

// Writes the line of a refused line.
#[tactic(auto, using(crate::proofs::Written::part_none))]
fn write_refused<Si: Sink>(alloc: Global, sink: &mut Si, why: Refused) -> Result<(), KeepFail>
    ensures text { OnOk result (Appends (Si.held sink.old) (Si.held sink.new) (refused_text_of why.line (reason_text why.reason))) }
    ensures part { OnErr result (WritesPart (Si.held sink.old) (Si.held sink.new) (refused_text_of why.line (reason_text why.reason))) }
    ensures cause { MatchResult result (λ _. Si.faults sink.new ≡ Si.faults sink.old) (λ fail. CountsWrite fail (Si.faults sink.old) (Si.faults sink.new)) }
{
    match refused_text(alloc, why) {
        Ok(text) => write_all(sink, text.as_slice()),
        Err(Memory) => Err(KeepFail::Memory),
    }
}

/// Writes the last line of a whole run, and reports the run, in which so many events were made.
#[tactic(auto, using(crate::proofs::Written::part_none))]
pub fn write_report<S: ClusterInterface, Si: Sink>(
    alloc: Global,
    sink: &mut Si,
    servers: S,
    events: u64,
) -> Result<Report, KeepFail>
    ensures text { OnOk result (Appends (Si.held sink.old) (Si.held sink.new) (last_text Whole (S.state servers))) }
    ensures part { OnErr result (WritesPart (Si.held sink.old) (Si.held sink.new) (last_text Whole (S.state servers))) }
    ensures report { IfOk result (IsReportOf (S.state servers) events) }
    ensures cause { MatchResult result (λ _. Si.faults sink.new ≡ Si.faults sink.old) (λ fail. CountsWrite fail (Si.faults sink.old) (Si.faults sink.new)) }
{
    let Ok((report, text)) = close(alloc, servers, events) else {
        return Err(KeepFail::Memory);
    };
    match write_all(sink, text.as_slice()) {
        Ok(()) => Ok(report),
        Err(fail) => Err(fail),
    }
}

// The report of a whole run, and its last line.
fn close<S: ClusterInterface>(
    alloc: Global,
    servers: S,
    events: u64,
) -> Result<(Report, Bytes), Memory>
    ensures report { IfOk result (λ c. IsReportOf (S.state servers) events c.0) }
    ensures text { IfOk result (λ c. c.1 ≡ last_text Whole (S.state servers)) }
{
    let report = report_of(alloc, servers, events)?;
    let length = report.agreed.len() as u64;
    let text = end_text(alloc, length, report.unanswered.as_slice())?;
    Ok((report, text))
}

/// The report of a whole run, in which so many events were made.
pub fn report_of<S: ClusterInterface>(
    alloc: Global,
    servers: S,
    events: u64,
) -> Result<Report, Memory>
    ensures { IfOk result (IsReportOf (S.state servers) events) }
{
    let unanswered = servers.unanswered(alloc)?;
    let applied = applied_by_all(alloc, &servers)?;
    let requests = servers.asked();
    let agreed = servers.into_agreed(alloc)?;
    Ok(Report {
        events,
        requests,
        agreed,
        applied,
        unanswered,
    })
}

// How many entries of the agreed log each server has applied, the first one first.
fn applied_by_all<S: ClusterInterface>(alloc: Global, servers: &S) -> Result<List<u64>, Memory>
    ensures { IfOk result (λ lengths. lengths ≡ applied_lengths (S.state servers.now)) }
{
    let mut lengths = List::new(alloc);
    let mut done = 0;
    while done < servers.servers() {
        done += 1;
        lengths.push(servers.applied(done))?;
    }
    Ok(lengths)
}
