ghost use Rattle.std.specs.Prelude.{◌≡◌, ℕ, suc, ◌+◌, ◌<◌, ◌^◌, IfOk, OnOk, OnErr, MatchResult, flat_map, length, None, option_map};
ghost use Rattle.std.specs.Io.KnownBytes.{Appends};
ghost use Rattle.cluster_rules.specs.Cluster.{Cluster};
ghost use Rattle.filter_expr.specs.Expressions.{expression_of};
ghost use Rattle.run_rules.specs.Holds.{IsFirstStart};
ghost use Rattle.run_rules.specs.Lines.{Said, Makes, Settles, misfit};
ghost use Rattle.run_rules.specs.Plays.{emptied};
ghost use Rattle.script_player.specs.Line.{lines_of};
ghost use Rattle.script_player.specs.Filters.{Filters as SpecFilters, filter_in};
ghost use Rattle.script_player.specs.Script.{said};
ghost use Rattle.cluster_interface.specs.Interface.{IsPlayed};
ghost use Rattle.script_player.specs.Stage.{AreFor, AreForAll, CountsWrite, GoesOn, IfMade, IsFew, IsRead, KeepsWaiting, MakesTo, PlaysPart, PlaysTo, SettlesAll, TakesAll, TakesFirst, Turns, ending_of, filter_said, kept_in, put_for, through};
ghost use Rattle.script_player.specs.Run.{WritesPart};

use crate::filters::Filters;
use crate::line::split_at_byte;
use crate::reader::{SaidLine, Says, next_number, said_by};
use crate::refused::Refused;
use crate::taker::Taker;
use cat_model::{Event, Memory};
use cluster_interface::ClusterInterface;
use filter_expr::Filter;
use http_routes::Routes;
use outside::KeepFail;
use script_lang::BadLine;
use std::alloc::Global;

/// What a line did: so many events, or it is refused.
#[derive(Clone, Copy, Debug)]
pub enum Turn {
    Made(u64),
    Refused(BadLine),
}

/// What the lines did: so many events, up to the end or a refused line.
#[derive(Clone, Copy, Debug)]
pub struct Played {
    pub events: u64,
    pub refused: Option<Refused>,
}

/// Plays the lines after the opening, the first of them with the number `first`, and hands their outs on, each with the
/// filter of its request.
pub fn play<S: ClusterInterface, T: Taker>(
    alloc: Global,
    routes: &Routes,
    taker: &mut T,
    servers: &mut S,
    seed: u64,
    first: u64,
    lines: &[u8],
) -> Result<Played, KeepFail>
    requires few { first + length lines.now < 2 ^ 30 }
    requires first { IsFirstStart (S.state servers.old) }
    ensures plays { IfOk result (λ p. PlaysTo (through T.adds (filter_in (said seed) 1 (lines_of lines.now))) (said seed) first (lines_of lines.now) (S.state servers.old) (ending_of p.refused) (S.state servers.new) p.events (T.held taker.old) (T.held taker.new)) }
    ensures part { OnErr result (PlaysPart (through T.adds (filter_in (said seed) 1 (lines_of lines.now))) (said seed) first (lines_of lines.now) (S.state servers.old) (T.held taker.old) (T.held taker.new)) }
    ensures cause { MatchResult result (λ _. T.faults taker.new ≡ T.faults taker.old) (λ fail. CountsWrite fail (T.faults taker.old) (T.faults taker.new)) }
{
    let mut filters = Filters::new(alloc);
    let mut rest = lines;
    let mut number = first;
    let mut events: u64 = 0;
    while !rest.is_empty() {
        let (line, after) = split_at_byte(rest, b'\n');
        match play_line(alloc, routes, taker, servers, &mut filters, seed, line) {
            Ok(Turn::Made(made)) => events += made,
            Ok(Turn::Refused(reason)) => {
                return Ok(Played {
                    events,
                    refused: Some(Refused {
                        line: number,
                        reason,
                    }),
                });
            }
            Err(fail) => return Err(fail),
        }
        rest = after;
        number += 1;
    }
    Ok(Played {
        events,
        refused: None,
    })
}

// Keeps the filter of the next request, if it has one.
fn keep<S: ClusterInterface>(
    filters: &mut Filters,
    servers: &S,
    filter: Option<Filter>,
) -> Result<(), Memory>
    ensures { OnOk result ((k : ℕ) → kept_in filters.new k ≡ put_for (suc (S.state servers.now).asked) (option_map expression_of filter) (kept_in filters.old) k) }
{
    let number = next_number(servers)?;
    filters.put(number, filter)
}

// Plays one line.
fn play_line<S: ClusterInterface, T: Taker>(
    alloc: Global,
    routes: &Routes,
    taker: &mut T,
    servers: &mut S,
    filters: &mut Filters,
    seed: u64,
    line: &[u8],
) -> Result<Turn, KeepFail>
    ensures turns { IfOk result (λ turn. (f : SpecFilters) → AreForAll f (put_for (suc (S.state servers.old).asked) (filter_said (said seed (suc (S.state servers.old).asked) line.now) line.now) (kept_in filters.old)) (S.state servers.old) (said seed (suc (S.state servers.old).asked) line.now) →
        TakesAll (through T.adds f) (λ outs. Turns (S.state servers.old) (said seed (suc (S.state servers.old).asked) line.now) (S.state servers.new) outs turn) (T.held taker.old) (T.held taker.new)) }
    ensures kept { IfOk result (λ turn. IfMade turn (KeepsWaiting (put_for (suc (S.state servers.old).asked) (filter_said (said seed (suc (S.state servers.old).asked) line.now) line.now) (kept_in filters.old)) (kept_in filters.new) (S.state servers.new).past)) }
    ensures few { IfOk result IsFew }
    ensures part { OnErr result ((f : SpecFilters) → AreForAll f (put_for (suc (S.state servers.old).asked) (filter_said (said seed (suc (S.state servers.old).asked) line.now) line.now) (kept_in filters.old)) (S.state servers.old) (said seed (suc (S.state servers.old).asked) line.now) →
        TakesFirst (through T.adds f) (GoesOn (S.state servers.old) (said seed (suc (S.state servers.old).asked) line.now)) (T.held taker.old) (T.held taker.new)) }
    ensures cause { MatchResult result (λ _. T.faults taker.new ≡ T.faults taker.old) (λ fail. CountsWrite fail (T.faults taker.old) (T.faults taker.new)) }
{
    match said_by(alloc, routes, servers, seed, line) {
        Ok(SaidLine { says, filter }) => match keep(filters, servers, filter) {
            Ok(()) => play_said(alloc, taker, servers, filters, says),
            Err(Memory) => Err(KeepFail::Memory),
        },
        Err(Memory) => Err(KeepFail::Memory),
    }
}

// Plays what a line says.
fn play_said<S: ClusterInterface, T: Taker>(
    alloc: Global,
    taker: &mut T,
    servers: &mut S,
    filters: &mut Filters,
    says: Says,
) -> Result<Turn, KeepFail>
    requires { (s : Said) × IsRead (S.state servers.old) s says }
    ensures turns { IfOk result (λ turn. (s : Said) (f : SpecFilters) → IsRead (S.state servers.old) s says → AreForAll f (kept_in filters.old) (S.state servers.old) s →
        TakesAll (through T.adds f) (λ outs. Turns (S.state servers.old) s (S.state servers.new) outs turn) (T.held taker.old) (T.held taker.new)) }
    ensures kept { IfOk result (λ turn. IfMade turn (KeepsWaiting (kept_in filters.old) (kept_in filters.new) (S.state servers.new).past)) }
    ensures few { IfOk result IsFew }
    ensures part { OnErr result ((s : Said) (f : SpecFilters) → IsRead (S.state servers.old) s says → AreForAll f (kept_in filters.old) (S.state servers.old) s →
        TakesFirst (through T.adds f) (GoesOn (S.state servers.old) s) (T.held taker.old) (T.held taker.new)) }
    ensures cause { MatchResult result (λ _. T.faults taker.new ≡ T.faults taker.old) (λ fail. CountsWrite fail (T.faults taker.old) (T.faults taker.new)) }
{
    match says {
        Says::Nothing => Ok(Turn::Made(0)),
        Says::Makes(event) => match make(alloc, taker, servers, filters, event) {
            Ok(()) => Ok(Turn::Made(1)),
            Err(fail) => Err(fail),
        },
        Says::Settles(most) => match settle(alloc, taker, servers, filters, most) {
            Ok(pairs) => Ok(Turn::Made(2 * u64::from(pairs))),
            Err(fail) => Err(fail),
        },
        Says::Refuses(why) => Ok(Turn::Refused(why)),
    }
}

// Makes the event, and hands on what it gives.
#[tactic(auto, using(crate::proofs::Turning::none_first))]
fn make<S: ClusterInterface, T: Taker>(
    alloc: Global,
    taker: &mut T,
    servers: &mut S,
    filters: &mut Filters,
    event: Event,
) -> Result<(), KeepFail>
    requires fits { misfit (S.state servers.old) event ≡ None }
    requires built { IsPlayed event }
    ensures made { OnOk result ((f : SpecFilters) → AreForAll f (kept_in filters.old) (S.state servers.old) (Makes event) → TakesAll (through T.adds f) (MakesTo (S.state servers.old) event (S.state servers.new)) (T.held taker.old) (T.held taker.new)) }
    ensures kept { OnOk result (KeepsWaiting (kept_in filters.old) (kept_in filters.new) (S.state servers.new).past) }
    ensures part { OnErr result ((f : SpecFilters) → AreForAll f (kept_in filters.old) (S.state servers.old) (Makes event) → TakesFirst (through T.adds f) (λ outs. (c : Cluster) × MakesTo (S.state servers.old) event c outs) (T.held taker.old) (T.held taker.new)) }
    ensures cause { MatchResult result (λ _. T.faults taker.new ≡ T.faults taker.old) (λ fail. CountsWrite fail (T.faults taker.old) (T.faults taker.new)) }
{
    match servers.step(alloc, event) {
        Ok(()) => take_outs(alloc, taker, servers, filters),
        Err(Memory) => Err(KeepFail::Memory),
    }
}

// Settles, and hands on what it gives. Says how many messages were delivered.
fn settle<S: ClusterInterface, T: Taker>(
    alloc: Global,
    taker: &mut T,
    servers: &mut S,
    filters: &mut Filters,
    most: u32,
) -> Result<u32, KeepFail>
    ensures made { IfOk result (λ pairs. (f : SpecFilters) → AreForAll f (kept_in filters.old) (S.state servers.old) (Settles most) → TakesAll (through T.adds f) (SettlesAll (S.state servers.old) most pairs (S.state servers.new)) (T.held taker.old) (T.held taker.new)) }
    ensures kept { OnOk result (KeepsWaiting (kept_in filters.old) (kept_in filters.new) (S.state servers.new).past) }
    ensures part { OnErr result ((f : SpecFilters) → AreForAll f (kept_in filters.old) (S.state servers.old) (Settles most) → TakesFirst (through T.adds f) (λ outs. (pairs : ℕ) × (c : Cluster) × SettlesAll (S.state servers.old) most pairs c outs) (T.held taker.old) (T.held taker.new)) }
    ensures cause { MatchResult result (λ _. T.faults taker.new ≡ T.faults taker.old) (λ fail. CountsWrite fail (T.faults taker.old) (T.faults taker.new)) }
{
    match servers.settle(alloc, most) {
        Ok(pairs) => match take_outs(alloc, taker, servers, filters) {
            Ok(()) => Ok(pairs),
            Err(fail) => Err(fail),
        },
        Err(Memory) => Err(KeepFail::Memory),
    }
}

// Hands on all outs that wait, each with its request's filter, which is dropped then.
fn take_outs<S: ClusterInterface, T: Taker>(
    alloc: Global,
    taker: &mut T,
    servers: &mut S,
    filters: &mut Filters,
) -> Result<(), KeepFail>
    ensures state { OnOk result (S.state servers.new ≡ emptied (S.state servers.old)) }
    ensures adds { OnOk result ((f : SpecFilters) → AreFor f (kept_in filters.old) (S.state servers.old).tray → Appends (T.held taker.old) (T.held taker.new) (flat_map (through T.adds f) (S.state servers.old).tray)) }
    ensures kept { OnOk result (KeepsWaiting (kept_in filters.old) (kept_in filters.new) (S.state servers.new).past) }
    ensures part { OnErr result ((f : SpecFilters) → AreFor f (kept_in filters.old) (S.state servers.old).tray → WritesPart (T.held taker.old) (T.held taker.new) (flat_map (through T.adds f) (S.state servers.old).tray)) }
    ensures cause { MatchResult result (λ _. T.faults taker.new ≡ T.faults taker.old) (λ fail. CountsWrite fail (T.faults taker.old) (T.faults taker.new)) }
{
    while let Some(out) = servers.next_out() {
        let filter = filters.take(out.number());
        let taken = taker.take(alloc, out, filter.as_ref());
        drop(filter);
        match taken {
            Ok(()) => {}
            Err(fail) => return Err(fail),
        }
    }
    Ok(())
}
