ghost use Rattle.std.specs.Prelude.{◌≡◌, ◌<◌, ◌^◌, ◌+◌, IfOk, IfSome, MatchOption, None, Some, flat_map, length};
ghost use Rattle.script_player.specs.Found.{found_in};
ghost use Rattle.script_player.specs.Line.{lines_of};
ghost use Rattle.script_player.specs.Run.{IsRefused, IsReportOf, RunOf};
ghost use Rattle.script_player.specs.Script as script;
ghost use Rattle.script_player.specs.Script.{script_of};
ghost use Rattle.script_player.specs.Stage.{IsOpening};
ghost use Rattle.script_player.specs.declared.refused.Refused.{Refused};

use crate::found::Found;
use crate::openings::{NotOpened, Opened, open};
use crate::player::report_of;
use crate::refused::Refused;
use crate::report::Report;
use crate::stage::{Played, play};
use crate::start::start;
use cat_model::{List, Memory};
use cluster_interface::ClusterInterface;
use http_routes::Routes;
use outside::MemKeeper;
use std::alloc::Global;

/// Plays the script as `play_script` does, but writes nothing: it reports the run, with the numbers of the requests
/// that found something. There is no report where a line is refused.
pub fn play_finding<S: ClusterInterface<K = MemKeeper>>(
    alloc: Global,
    script: &[u8],
) -> Result<Option<(Report, Found)>, Memory>
    requires { length script.now < 2 ^ 29 }
    ensures { IfOk result (λ r. MatchOption r (IsRefused (script_of script.now))
        (λ ran. RunOf (script_of script.now) (λ outs c. ran.1.numbers ≡ flat_map found_in outs) ran.0)) }
{
    let Ok(routes) = Routes::new(alloc) else {
        return Err(Memory);
    };
    match open(alloc, &routes, script) {
        Ok(opened) => find_opened::<S>(alloc, &routes, &opened),
        Err(NotOpened::Refused(_)) => Ok(None),
        Err(NotOpened::Memory) => Err(Memory),
    }
}

// Plays the lines of an opened script.
fn find_opened<S: ClusterInterface<K = MemKeeper>>(
    alloc: Global,
    routes: &Routes,
    opened: &Opened,
) -> Result<Option<(Report, Found)>, Memory>
    requires few { opened.now.next + length opened.now.lines.now < 2 ^ 30 }
    requires bounds { IsOpening opened.now.opening }
    ensures run { IfOk result (λ r. MatchOption r
        (IsRefused (script.Opened opened.now.opening opened.now.next (lines_of opened.now.lines.now)))
        (λ ran. RunOf (script.Opened opened.now.opening opened.now.next (lines_of opened.now.lines.now)) (λ outs c. ran.1.numbers ≡ flat_map found_in outs) ran.0)) }
{
    let opening = opened.opening;
    let Ok(mut servers) = start::<S>(alloc, opening) else {
        return Err(Memory);
    };
    let mut found = Found {
        numbers: List::new(alloc),
    };
    match play(
        alloc,
        routes,
        &mut found,
        &mut servers,
        opening.seed,
        opened.next,
        opened.lines,
    ) {
        Ok(played) => finish_finding(alloc, servers, played, found),
        Err(_) => Err(Memory),
    }
}

// Reports what was played, if no line was refused.
fn finish_finding<S: ClusterInterface>(
    alloc: Global,
    servers: S,
    played: Played,
    found: Found,
) -> Result<Option<(Report, Found)>, Memory>
    ensures reports { IfOk result (λ r. IfSome r (λ ran. IsReportOf (S.state servers) played.events ran.0 × (ran.1 ≡ found))) }
    ensures refused { IfOk result (λ r. MatchOption r ((why : Refused) × (played.refused ≡ Some why)) (λ _. played.refused ≡ None)) }
{
    match played.refused {
        Some(_) => Ok(None),
        None => match report_of(alloc, servers, played.events) {
            Ok(report) => Ok(Some((report, found))),
            Err(Memory) => Err(Memory),
        },
    }
}
