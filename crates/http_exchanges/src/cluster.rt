//! The cluster as the turns use it.

ghost use Rattle.std.specs.Prelude.{◌≡◌, ℕ, ◌<◌, List, IfOk, OnErr, OnOk, length};
ghost use mathlib.Core.List.{IsPrefix};
ghost use Rattle.cat_model.specs.declared.reply.Mark.{Mark as SpecMark};
ghost use Rattle.cluster_rules.specs.Replies.{Out as SpecOut, Reply as SpecReply};
ghost use Rattle.cluster_requests.specs.Taking.{IsNumberAt};
ghost use Rattle.http_exchanges.specs.declared.cluster.Ask.{Ask as SpecAsk};
ghost use Rattle.http_exchanges.specs.Collects.{Collects};
ghost use Rattle.http_exchanges.specs.Marks.{AddsAsked, AddsCut, AddsQuiet, AreKept, Delivers, TicksAll, TicksBy, TicksNone, agreed_by};
ghost use Rattle.http_exchanges.specs.Turns.{MayAsk};

use cat_model::{Asked, Draw, Memory, Shared};
use cluster_requests::Reply;
use stale_view::{PairName, Viewer};
use std::alloc::Global;

/// What an agent is asked, and the words that were drawn for it.
#[derive(Drop)]
pub struct Ask {
    pub agent: u32,
    pub asked: Shared<Asked>,
    pub draw: Draw,
}

/// What there is of a request.
#[derive(Drop)]
pub enum Collected {
    Ready(Reply),
    NotYet,
    /// It was taken before or never asked.
    Gone,
}

/// A cluster that threads share by turns. Marks tell what has happened in it, and each call puts its own behind those
/// that there are. Agents are numbered from 1.
pub trait SharedCluster: Drop {
    /// Which pair the viewers are of that it shows what is agreed.
    type Pair: PairName;

    /// The marks, the first one first.
    ghost marks: { Self → List SpecMark };

    /// How many agents there are.
    ghost agents: { ℕ };

    /// How many servers there are, the first one 1.
    ghost servers: { Self → ℕ };

    /// How many milliseconds a server's clock has gone on.
    ghost clock: { Self → ℕ → ℕ };

    /// No message is under way between servers.
    ghost idle: { Self → Type 0 };

    /// The outs that wait to be taken.
    ghost tray: { Self → List SpecOut };

    /// The reply to the request with this number shows what it asks for and its kind give over the log that these marks
    /// tell.
    ghost shows: { ℕ → SpecAsk → SpecReply → List SpecMark → Type 0 };

    /// The stores over which it began are such that its servers agree.
    ghost agrees: { Type 0 };

    /// A law, which does nothing: each number is asked at most once and answered at most once, and only what was asked
    /// is taken.
    fn kept(&self)
        ensures { AreKept (marks self.now) };

    /// All clocks, servers' and agents', go on by so many milliseconds, but for those of servers that would pass their end, and
    /// what is due by then happens. No request is asked or taken.
    fn advance(&mut self, alloc: Global, ms: u64) -> Result<(), Memory>
        ensures quiet { AddsQuiet (marks self.old) (marks self.new) }
        ensures ticks { TicksBy ms (marks self.old) (marks self.new) }
        ensures all { OnOk result (0 < ms → TicksAll (servers self.old) agents (clock self.old) ms (marks self.old) (marks self.new)) };

    /// Asks an agent, and gives the request's number, which was never given before. The reply comes later. An ask that
    /// finds no memory may have put its mark.
    fn ask(&mut self, alloc: Global, ask: Ask) -> Result<u64, Memory>
        requires { MayAsk agents ask }
        ensures asked { IfOk result (λ n. AddsAsked n ask (marks self.old) (marks self.new)) }
        ensures cut { OnErr result (AddsCut (marks self.old) (marks self.new)) }
        ensures unticked { TicksNone (marks self.old) (marks self.new) };

    /// Delivers the messages between servers, those that were sent first before others, until none is left, at most so
    /// many, and says how many. Requests are answered on the way; none is asked or taken.
    fn settle(&mut self, alloc: Global, most: u32) -> Result<u32, Memory>
        ensures quiet { AddsQuiet (marks self.old) (marks self.new) }
        ensures unticked { TicksNone (marks self.old) (marks self.new) }
        ensures delivered { IfOk result (λ count. Delivers most (idle self.new) count (marks self.old) (marks self.new)) };

    /// Takes the reply to the request with this number, where there is one. Else nothing happens.
    fn collect(&mut self, number: u64) -> Collected
        ensures got { Collects shows number result (marks self.old) (marks self.new) }
        ensures idle { idle self.old → idle self.new };

    /// Shows all viewers the agreed log that the marks tell, and this one reads it. After lack of memory they see what they
    /// saw, and a later call goes on. Nothing else happens.
    fn show(&mut self, viewer: &mut Viewer<Self::Pair>) -> Result<(), Memory>
        ensures same { self.new ≡ self.old }
        ensures grown { IsPrefix viewer.old viewer.new }
        ensures read { OnOk result (agrees → viewer.new ≡ agreed_by (marks self.new)) };

    /// How many outs wait to be taken.
    fn outs(&self) -> usize
        ensures { result ≡ length (tray self.now) };

    /// The number of the request whose out stands at this place of those that wait, where it is a request's.
    fn out_number(&self, at: usize) -> Option<u64>
        requires { at < length (tray self.now) }
        ensures { IsNumberAt at (tray self.now) result };
}
