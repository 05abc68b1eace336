ghost use Rattle.std.specs.Prelude.{◌≡◌, ◌≤◌, IfOk, OnOk, OnErr, MatchResult, flat_map};
ghost use Rattle.std.specs.Io.KnownBytes.{Appends};
ghost use Rattle.load_player.specs.LoadScript.{load_script};
ghost use Rattle.load_player.specs.Summary.{summary_text};
ghost use Rattle.script_player.specs.Found.{found_in};
ghost use Rattle.script_player.specs.Run.{RunOf, WritesPart};
ghost use Rattle.script_player.specs.Script.{script_of};
ghost use Rattle.script_player.specs.Stage.{CountsWrite};
ghost use Rattle.load_player.specs.Played.{PlayedLoad, WritesLoadPart};

use crate::load::Load;
use crate::script::make_load;
use crate::summary::summarize;
use cat_model::Memory;
use cluster_interface::ClusterInterface;
use outside::{KeepFail, MemKeeper, Sink};
use script_player::{Found, Report, play_finding, write_all};
use std::alloc::Global;

/// Plays the load's script on servers of the type `S`, writes the line that sums it up, and reports the run. After a
/// failed write, or for lack of memory, a first part of the line is written.
pub fn play_load<S: ClusterInterface<K = MemKeeper>, Si: Sink>(
    alloc: Global,
    load: &Load,
    sink: &mut Si,
) -> Result<Report, KeepFail>
    requires { load.now.size ≤ 100000 }
    ensures played { IfOk result (PlayedLoad load.now (Si.held sink.old) (Si.held sink.new)) }
    ensures part { OnErr result (WritesLoadPart load.now (Si.held sink.old) (Si.held sink.new)) }
    ensures cause { MatchResult result (λ _. Si.faults sink.new ≡ Si.faults sink.old) (λ fail. CountsWrite fail (Si.faults sink.old) (Si.faults sink.new)) }
{
    match play_drawn::<S>(alloc, load.seed, load.size) {
        Ok((report, found)) => {
            let log = report.agreed.len() as u64;
            match write_summary(alloc, sink, load, found.numbers.len() as u64, log) {
                Ok(()) => Ok(report),
                Err(fail) => Err(fail),
            }
        }
        Err(Memory) => Err(KeepFail::Memory),
    }
}

// Plays the load with this seed and size, no line of which is refused. It reports the run, with the numbers of the
// requests that found something.
fn play_drawn<S: ClusterInterface<K = MemKeeper>>(
    alloc: Global,
    seed: u64,
    size: u32,
) -> Result<(Report, Found), Memory>
    requires { size ≤ 100000 }
    ensures { IfOk result (λ ran. RunOf (script_of (load_script seed size)) (λ outs c. ran.1.numbers ≡ flat_map found_in outs) ran.0) }
{
    let script = make_load(alloc, seed, size)?;
    match play_finding::<S>(alloc, &script)? {
        Some(ran) => Ok(ran),
        None => unreachable!(),
    }
}

// Writes the line that sums up a load.
fn write_summary<Si: Sink>(
    alloc: Global,
    sink: &mut Si,
    load: &Load,
    found: u64,
    log: u64,
) -> Result<(), KeepFail>
    ensures text { OnOk result (Appends (Si.held sink.old) (Si.held sink.new) (summary_text load.now.seed load.now.size found log)) }
    ensures part { OnErr result (WritesPart (Si.held sink.old) (Si.held sink.new) (summary_text load.now.seed load.now.size found log)) }
    ensures cause { MatchResult result (λ _. Si.faults sink.new ≡ Si.faults sink.old) (λ fail. CountsWrite fail (Si.faults sink.old) (Si.faults sink.new)) }
{
    match summarize(alloc, load.seed, load.size, found, log) {
        Ok(text) => write_all(sink, &text),
        Err(Memory) => Err(KeepFail::Memory),
    }
}
