ghost use Rattle.std.specs.Prelude.{◌≡◌, ◌+◌, ◌<◌, ◌≤◌, ◌^◌, IfOk, IfErr, Ok, length};
ghost use Rattle.script_player.specs.Line.{lines_of};
ghost use Rattle.script_player.specs.Script as spec;
ghost use Rattle.script_player.specs.Stage.{IsClosed, IsFine, IsOpening};

use crate::line::{is_nothing, split_at_byte};
use crate::reader::answer;
use crate::refused::Refused;
use cat_model::Memory;
use http_routes::Routes;
use script_lang::{BadLine, Line, opens_cluster};
use std::alloc::Global;

/// What the line says that opens a script's cluster.
#[derive(Clone, Copy, Debug, PartialEq, Eq)]
pub struct Opening {
    pub servers: u32,
    pub agents: u32,
    pub seed: u64,
}

/// A script whose cluster is opened: the number and the bytes of the lines that follow.
#[derive(Clone, Copy)]
pub struct Opened<'a> {
    pub opening: Opening,
    pub next: u64,
    pub lines: &'a [u8],
}

/// Why a script's cluster isn't opened.
#[derive(Clone, Copy, Debug, PartialEq, Eq)]
pub enum NotOpened {
    Refused(Refused),
    Memory,
}

/// Opens the script's cluster at its first line that says something, or says how it is refused there.
pub fn open<'a>(alloc: Global, routes: &Routes, script: &'a [u8]) -> Result<Opened<'a>, NotOpened>
    requires { length script.now < 2 ^ 60 }
    ensures opened { IfOk result (λ o. spec.script_of script.now ≡ spec.Opened o.opening o.next (lines_of o.lines.now)) }
    ensures within { IfOk result (λ o. o.next + length o.lines.now ≤ length script.now + 2) }
    ensures bounds { IfOk result (λ o. IsOpening o.opening) }
    ensures refused { IfErr result (IsClosed (spec.script_of script.now)) }
{
    let mut rest = script;
    let mut number: u64 = 1;
    while !rest.is_empty() {
        let (line, after) = split_at_byte(rest, b'\n');
        if !is_nothing(line) {
            return match opening_of(alloc, routes, line) {
                Ok(Ok(opening)) => Ok(Opened {
                    opening,
                    next: number + 1,
                    lines: after,
                }),
                Ok(Err(reason)) => Err(NotOpened::Refused(Refused {
                    line: number,
                    reason,
                })),
                Err(Memory) => Err(NotOpened::Memory),
            };
        }
        rest = after;
        number += 1;
    }
    Err(NotOpened::Refused(Refused {
        line: number,
        reason: BadLine::ExpectedCluster,
    }))
}

// The opening by the first line that says something, or why it is refused.
#[tactic(auto, using(crate::proofs::Beginning::opening_as, crate::proofs::Beginning::opening_none))]
fn opening_of(
    alloc: Global,
    routes: &Routes,
    line: &[u8],
) -> Result<Result<Opening, BadLine>, Memory>
    ensures value { IfOk result (λ r. r ≡ spec.opening_of line.now) }
    ensures bounds { IfOk result (λ r. IfOk r IsOpening) }
{
    if !opens_cluster(line) {
        return Ok(Err(BadLine::ExpectedCluster));
    }
    match answer(alloc, routes, line, 0, 0)? {
        Ok(read) => Ok(opened_by(&read.line)),
        Err(why) => Ok(Err(why)),
    }
}

// The opening that a line says.
fn opened_by(says: &Line) -> Result<Opening, BadLine>
    requires { IsFine (Ok says.now) }
    ensures value { result ≡ spec.opened_by (Ok says.now) }
    ensures bounds { IfOk result IsOpening }
{
    match says {
        Line::Nothing => Err(BadLine::UnknownLine),
        Line::Cluster {
            servers,
            agents,
            seed,
        } => Ok(Opening {
            servers: *servers,
            agents: *agents,
            seed: *seed,
        }),
        Line::Event(_) => Err(BadLine::UnknownLine),
        Line::Settle(_) => Err(BadLine::UnknownLine),
    }
}
