//! A connection, from its first byte to its end.

ghost use Rattle.std.specs.Prelude.{◌≡◌, ◌+◌, ◌++◌, ◌<◌, ◌≤◌, [], ℕ, List, IfErr, IfOk, MatchResult, OnOk, drop, false, true, length, option_map, take};
ghost use Rattle.std.specs.Arc.{arc_value};
ghost use Rattle.cat_model.specs.declared.request.Asked.TheVariants.{Good};
ghost use Rattle.cat_model.specs.Taken.{IsTakenAsked};
ghost use Rattle.filter_expr.specs.Expressions.{expression_of};
ghost use Rattle.http_routes.specs.Filters.{filter_at};
ghost use Rattle.http_wire.specs.Reader.{raw};
ghost use Rattle.http_wire.specs.Stream.{go_on, whole};
ghost use Rattle.serve_outside.specs.Links.{Reads};
ghost use Rattle.http_exchanges.specs.Boards.{IsOurs, known};
ghost use Rattle.http_exchanges.specs.Knowing.{Known, known_by};
ghost use Rattle.http_exchanges.specs.Services.{connection, stage};
ghost use Rattle.http_exchanges.specs.Serving.{EndsBy, IsReply, IsReplyTo, IsUnanswered, Opens, asked_by, draw_of, number_of};
ghost use Rattle.http_exchanges.specs.Stages.{Comes, GoesOn, IsTaking, Owes, OwesRefusal, Talks};
ghost use Rattle.http_exchanges.specs.Waiting.{Grows, IsAfterAsk, OpensFew};
ghost use Rattle.http_exchanges.specs.declared.cause.Cause.TheVariants as cause;
ghost use Rattle.http_exchanges.specs.declared.turns.NoReply.TheVariants as no_reply;
ghost use Rattle.http_exchanges.specs.Replies.{TakesNoTurn, is_viewed as is_viewed_spec, refusing as spec_refusing};

use crate::cause::Cause;
use crate::cluster::{Ask, SharedCluster};
use crate::replies::{Response, refusing};
use crate::served::Served;
use crate::turns::{NoReply, ask_and_wait};
use crate::views::{is_viewed, view};
use crate::writer::{send_answer, send_continue, send_refusal};
use cat_model::{Asked, Draw, Memory, Refusal, Request, Shared};
use cluster_requests::Reply;
use crossbeam_utils::CachePadded;
use http_routes::laws::routes_are_taken;
use http_routes::{Routed, Routes};
use http_wire::{Fed, Got, RawRequest, Rejection, RequestReader};
use outside::Failed;
use serve_outside::{Awaited, Clock, Gate, Link};
use stale_view::Viewer;
use std::alloc::Global;
use std::snapshot::Snapshot;
use std::sync::{Arc, Wait};
use turn_lock::{History, HistoryLock, Pass};

/// The lock by which threads share a state in turns. No other value lies in its cache line.
pub type Board<S> = CachePadded<HistoryLock<S>>;

/// How many bytes are read at most in one call.
const ROOM: usize = 4096;

/// What serves a connection: the board of turns, a clock and a gate, the table of paths, the agent that is asked and the
/// connection's draw, and the link, the pass and the viewer as they were at first.
#[derive(Drop)]
pub struct Service<R, S: History, Cl, G, L, V> {
    pub rt: R,
    pub alloc: Global,
    pub board: Arc<Board<S>, Global>,
    pub clock: Cl,
    pub gate: Arc<G, Global>,
    pub routes: Arc<Routes, Global>,
    pub agent: u32,
    pub draw: Draw,
    pub first: Snapshot<L>,
    pub begun: Snapshot<Pass<S>>,
    pub read: Snapshot<V>,
}

/// A connection that is served, and how many requests were answered on it.
#[derive(Drop)]
pub struct Serving<L, S: History, V> {
    pub link: L,
    pub reader: RequestReader,
    pub pass: Pass<S>,
    pub viewer: V,
    pub requests: u64,
}

// The draw of the n-th request.
fn nth_draw(draw: Draw, n: u64) -> Draw
    ensures { result ≡ draw_of draw n }
{
    Draw {
        hi: draw.hi,
        lo: draw.lo.wrapping_add(n),
    }
}

// What the next read waits for.
fn awaited(reader: &RequestReader) -> Awaited {
    if reader.held() > 0 {
        Awaited::Rest
    } else {
        Awaited::Message
    }
}

// Takes the next bytes of a link.
fn read_next<L: Link>(link: &mut L, what: Awaited, buffer: &mut [u8]) -> Result<usize, Failed>
    requires unshut { (L.state link.old).shut ≡ false }
    ensures { Reads (L.state link.old) buffer.new result (L.state link.new) }
{
    link.expect(what);
    link.read(buffer)
}

// Whether a connection ends behind a reply.
fn ends_here(close: bool) -> Result<(), Cause>
    ensures { MatchResult result (λ _. close ≡ false) (λ why. (close ≡ true) × (why ≡ cause.Closed)) }
{
    if close { Err(Cause::Closed) } else { Ok(()) }
}

// What the n-th request asks of its agent.
fn asking<R, C: SharedCluster, Cl, G, L>(
    service: &Service<R, Served<C>, Cl, G, L, Viewer<C::Pair>>,
    request: Request,
    n: u64,
) -> Result<Ask, Memory>
    ensures { IfOk result (λ ask. ask ≡ record { agent = service.now.agent; asked = Good request; draw = draw_of service.now.draw n }) }
{
    Ok(Ask {
        agent: service.agent,
        asked: Shared::new(service.alloc, Asked::Good(request))?,
        draw: nth_draw(service.draw, n),
    })
}

// The reply to the n-th request, which asks for this. The link is asked whether its client is still there.
fn ask<R: Wait, C: SharedCluster, Cl: Clock, G: Gate, L: Link>(
    service: &Service<R, Served<C>, Cl, G, L, Viewer<C::Pair>>,
    pass: &mut Pass<Served<C>>,
    viewer: &mut Viewer<C::Pair>,
    link: &mut L,
    request: Request,
    n: u64,
) -> Result<Reply, NoReply>
    requires ours { IsOurs (arc_value service.now.board) pass.old }
    requires agent { (0 < service.now.agent) × (service.now.agent ≤ C.agents) }
    requires taken { IsTakenAsked (Good request) }
    requires unviewed { is_viewed_spec request ≡ false }
    ensures ours { IsOurs (arc_value service.now.board) pass.new }
    ensures opened { Opens (Good request) result (known pass.old).mine (known pass.new).mine }
    ensures grown { Grows (known_by pass.old viewer.old) (known_by pass.new viewer.new) }
    ensures link { IsAfterAsk result (L.state link.old) (L.state link.new) }
    ensures reply { IfOk result (IsReplyTo C.shows C.agrees (connection L.state service.now) request n (known_by pass.old viewer.old) (known_by pass.new viewer.new)) }
    ensures left { IfErr result (λ why. why ≡ no_reply.Left → IsUnanswered C.shows C.agrees (connection L.state service.now) (Good request) n (known pass.old).mine (known_by pass.new viewer.new)) }
{
    match asking(service, request, n) {
        Ok(ask) => {
            let lock = &**service.board;
            ask_and_wait(
                &service.rt,
                service.alloc,
                lock,
                pass,
                viewer,
                &service.clock,
                &*service.gate,
                link,
                ask,
            )
        }
        Err(Memory) => Err(NoReply::Memory),
    }
}

// A refusal.
fn refused(why: Refusal) -> Result<Reply, NoReply>
    ensures reply { IfOk result (λ reply. reply ≡ spec_refusing why) }
    ensures left { IfErr result (λ why. why ≡ no_reply.Memory) }
{
    match refusing(why) {
        Ok(reply) => Ok(reply),
        Err(Memory) => Err(NoReply::Memory),
    }
}

// The reply to the n-th request: from the viewer, or from the cluster.
fn reply_by<R: Wait, C: SharedCluster, Cl: Clock, G: Gate, L: Link>(
    service: &Service<R, Served<C>, Cl, G, L, Viewer<C::Pair>>,
    pass: &mut Pass<Served<C>>,
    viewer: &mut Viewer<C::Pair>,
    link: &mut L,
    request: Request,
    n: u64,
) -> Result<Reply, NoReply>
    requires ours { IsOurs (arc_value service.now.board) pass.old }
    requires agent { (0 < service.now.agent) × (service.now.agent ≤ C.agents) }
    requires taken { IsTakenAsked (Good request) }
    ensures ours { IsOurs (arc_value service.now.board) pass.new }
    ensures unturned { TakesNoTurn (Good request) pass.old pass.new }
    ensures opened { Opens (Good request) result (known pass.old).mine (known pass.new).mine }
    ensures grown { Grows (known_by pass.old viewer.old) (known_by pass.new viewer.new) }
    ensures link { IsAfterAsk result (L.state link.old) (L.state link.new) }
    ensures reply { IfOk result (λ reply. IsReply C.shows C.agrees (connection L.state service.now) (Good request) n reply (known_by pass.old viewer.old) (known_by pass.new viewer.new)) }
    ensures left { IfErr result (λ why. why ≡ no_reply.Left → IsUnanswered C.shows C.agrees (connection L.state service.now) (Good request) n (known pass.old).mine (known_by pass.new viewer.new)) }
{
    if !is_viewed(&request) {
        return ask(service, pass, viewer, link, request, n);
    }
    let seen = view(service.alloc, viewer, &request);
    drop(request);
    seen
}

// The reply to the n-th request, as it was routed.
fn respond<R: Wait, C: SharedCluster, Cl: Clock, G: Gate, L: Link>(
    service: &Service<R, Served<C>, Cl, G, L, Viewer<C::Pair>>,
    pass: &mut Pass<Served<C>>,
    viewer: &mut Viewer<C::Pair>,
    link: &mut L,
    asked: Asked,
    n: u64,
) -> Result<Reply, NoReply>
    requires ours { IsOurs (arc_value service.now.board) pass.old }
    requires agent { (0 < service.now.agent) × (service.now.agent ≤ C.agents) }
    requires taken { IsTakenAsked asked }
    ensures ours { IsOurs (arc_value service.now.board) pass.new }
    ensures unturned { TakesNoTurn asked pass.old pass.new }
    ensures opened { Opens asked result (known pass.old).mine (known pass.new).mine }
    ensures grown { Grows (known_by pass.old viewer.old) (known_by pass.new viewer.new) }
    ensures link { IsAfterAsk result (L.state link.old) (L.state link.new) }
    ensures reply { IfOk result (λ reply. IsReply C.shows C.agrees (connection L.state service.now) asked n reply (known_by pass.old viewer.old) (known_by pass.new viewer.new)) }
    ensures left { IfErr result (λ why. why ≡ no_reply.Left → IsUnanswered C.shows C.agrees (connection L.state service.now) asked n (known pass.old).mine (known_by pass.new viewer.new)) }
{
    match asked {
        Asked::Good(request) => reply_by(service, pass, viewer, link, request, n),
        Asked::Bad(why) => refused(why),
    }
}

// What a request asks for, and its filter.
fn routed(alloc: Global, routes: &Routes, message: &RawRequest) -> Result<Routed, Memory>
    ensures asked { IfOk result (λ r. r.asked ≡ asked_by (raw message.now)) }
    ensures taken { IfOk result (λ r. IsTakenAsked r.asked) }
    ensures filter { IfOk result (λ r. option_map expression_of r.filter ≡ filter_at (raw message.now).target) }
{
    routes_are_taken();
    routes.route(
        alloc,
        message.method.as_str().as_bytes(),
        message.target.as_str().as_bytes(),
        message.body.as_slice(),
    )
}

// The reply to the n-th request, with its filter.
fn reply_to<R: Wait, C: SharedCluster, Cl: Clock, G: Gate, L: Link>(
    service: &Service<R, Served<C>, Cl, G, L, Viewer<C::Pair>>,
    pass: &mut Pass<Served<C>>,
    viewer: &mut Viewer<C::Pair>,
    link: &mut L,
    message: &RawRequest,
    n: u64,
) -> Result<Response, NoReply>
    requires ours { IsOurs (arc_value service.now.board) pass.old }
    requires agent { (0 < service.now.agent) × (service.now.agent ≤ C.agents) }
    ensures ours { IsOurs (arc_value service.now.board) pass.new }
    ensures unturned { OnOk result (TakesNoTurn (asked_by (raw message.now)) pass.old pass.new) }
    ensures opened { MatchResult result
        (λ r. (known pass.new).mine ≡ (known pass.old).mine ++ number_of (asked_by (raw message.now)) r.reply)
        (λ _. OpensFew (known pass.old).mine (known pass.new).mine) }
    ensures grown { Grows (known_by pass.old viewer.old) (known_by pass.new viewer.new) }
    ensures link { IsAfterAsk result (L.state link.old) (L.state link.new) }
    ensures reply { IfOk result (λ r. IsReply C.shows C.agrees (connection L.state service.now) (asked_by (raw message.now)) n r.reply (known_by pass.old viewer.old) (known_by pass.new viewer.new)) }
    ensures filter { IfOk result (λ r. option_map expression_of r.filter ≡ filter_at (raw message.now).target) }
    ensures left { IfErr result (λ why. why ≡ no_reply.Left → IsUnanswered C.shows C.agrees (connection L.state service.now) (asked_by (raw message.now)) n (known pass.old).mine (known_by pass.new viewer.new)) }
{
    match routed(service.alloc, &*service.routes, message) {
        Ok(Routed { asked, filter }) => match respond(service, pass, viewer, link, asked, n) {
            Ok(reply) => Ok(Response { reply, filter }),
            Err(why) => Err(why),
        },
        Err(Memory) => Err(NoReply::Memory),
    }
}

impl<L: Link, C: SharedCluster> Serving<L, Served<C>, Viewer<C::Pair>> {
    // Writes that the client may go on with the body of its request.
    fn go_on<R, Cl, G>(
        &mut self,
        service: &Service<R, Served<C>, Cl, G, L, Viewer<C::Pair>>,
    ) -> Result<(), Cause>
        requires unshut { (L.state self.old.link).shut ≡ false }
        ensures pass { (self.new.pass ≡ self.old.pass) × (self.new.viewer ≡ self.old.viewer) }
        ensures goes_on { (rest : List ℕ) → Owes C.shows C.agrees (connection L.state service.now) (stage L.state self.old) rest go_on → GoesOn C.shows C.agrees (connection L.state service.now) result (stage L.state self.new) rest }
    {
        send_continue(&mut self.link, service.alloc)
    }

    // Writes the reply to the n-th request.
    fn give<R, Cl, G>(
        &mut self,
        service: &Service<R, Served<C>, Cl, G, L, Viewer<C::Pair>>,
        message: &RawRequest,
        response: &Response,
        n: u64,
    ) -> Result<(), Cause>
        requires next { n ≡ self.old.requests + 1 }
        requires unshut { (L.state self.old.link).shut ≡ false }
        requires filter { option_map expression_of response.now.filter ≡ filter_at (raw message.now).target }
        ensures pass { (self.new.pass ≡ self.old.pass) × (self.new.viewer ≡ self.old.viewer) }
        ensures gives { (before : Known) (rest : List ℕ) → Owes C.shows C.agrees (connection L.state service.now) (record (stage L.state self.old) { known = before }) rest (whole (raw message.now)) → Grows before (known_by self.old.pass self.old.viewer)
            → (known self.old.pass).mine ≡ before.mine ++ number_of (asked_by (raw message.now)) response.now.reply
            → IsReply C.shows C.agrees (connection L.state service.now) (asked_by (raw message.now)) n response.now.reply before (known_by self.old.pass self.old.viewer)
            → GoesOn C.shows C.agrees (connection L.state service.now) result (stage L.state self.new) rest }
    {
        match send_answer(&mut self.link, service.alloc, message, response) {
            Ok(()) => {
                self.requests = n;
                ends_here(message.close)
            }
            Err(why) => Err(why),
        }
    }

    // Writes the reply to bytes that are refused, behind which nothing comes.
    fn refuse<R, Cl, G>(
        &mut self,
        service: &Service<R, Served<C>, Cl, G, L, Viewer<C::Pair>>,
        why: Rejection,
    ) -> Cause
        requires unshut { (L.state self.old.link).shut ≡ false }
        ensures pass { (self.new.pass ≡ self.old.pass) × (self.new.viewer ≡ self.old.viewer) }
        ensures ends { OwesRefusal C.shows C.agrees (connection L.state service.now) (L.state self.old.link) (known_by self.old.pass self.old.viewer) self.old.requests why
            → EndsBy C.shows C.agrees (connection L.state service.now) result (L.state self.new.link) (known_by self.new.pass self.new.viewer) self.new.requests }
    {
        match send_refusal(&mut self.link, service.alloc, why) {
            Ok(()) => Cause::Refused(why),
            Err(cut) => cut,
        }
    }

    // Answers a request.
    fn answer<R: Wait, Cl: Clock, G: Gate>(
        &mut self,
        service: &Service<R, Served<C>, Cl, G, L, Viewer<C::Pair>>,
        message: &RawRequest,
    ) -> Result<(), Cause>
        requires ours { IsOurs (arc_value service.now.board) self.old.pass }
        requires agent { (0 < service.now.agent) × (service.now.agent ≤ C.agents) }
        requires unshut { (L.state self.old.link).shut ≡ false }
        ensures ours { IsOurs (arc_value service.now.board) self.new.pass }
        ensures goes_on { (rest : List ℕ) → Owes C.shows C.agrees (connection L.state service.now) (stage L.state self.old) rest (whole (raw message.now)) → GoesOn C.shows C.agrees (connection L.state service.now) result (stage L.state self.new) rest }
    {
        let Some(n) = self.requests.checked_add(1) else {
            return Err(Cause::Memory);
        };
        match reply_to(
            service,
            &mut self.pass,
            &mut self.viewer,
            &mut self.link,
            message,
            n,
        ) {
            Ok(response) => {
                let given = self.give(service, message, &response, n);
                drop(response);
                given
            }
            Err(NoReply::Memory) => Err(Cause::Memory),
            Err(NoReply::Left) => Err(Cause::Left),
        }
    }

    // Does what the reader asks for.
    fn handle<R: Wait, Cl: Clock, G: Gate>(
        &mut self,
        service: &Service<R, Served<C>, Cl, G, L, Viewer<C::Pair>>,
        got: Got,
    ) -> Result<(), Cause>
        requires ours { IsOurs (arc_value service.now.board) self.old.pass }
        requires agent { (0 < service.now.agent) × (service.now.agent ≤ C.agents) }
        requires unshut { (L.state self.old.link).shut ≡ false }
        ensures ours { IsOurs (arc_value service.now.board) self.new.pass }
        ensures goes_on { (rest : List ℕ) → Comes C.shows C.agrees (connection L.state service.now) (stage L.state self.old) rest got → GoesOn C.shows C.agrees (connection L.state service.now) result (stage L.state self.new) rest }
        ensures taking { OnOk result (IsTaking got) }
    {
        match got {
            Got::More => Ok(()),
            Got::Continue => self.go_on(service),
            Got::Message(message) => {
                let answered = self.answer(service, &message);
                drop(message);
                answered
            }
            Got::Refused(why) => Err(self.refuse(service, why)),
            Got::Memory => Err(Cause::Memory),
        }
    }

    // Takes the first bytes of a piece that is not empty, and says how many.
    fn take_some<R: Wait, Cl: Clock, G: Gate>(
        &mut self,
        service: &Service<R, Served<C>, Cl, G, L, Viewer<C::Pair>>,
        piece: &[u8],
    ) -> Result<usize, Cause>
        requires some { 0 < length piece.now }
        requires ours { IsOurs (arc_value service.now.board) self.old.pass }
        requires agent { (0 < service.now.agent) × (service.now.agent ≤ C.agents) }
        requires talks { Talks C.shows C.agrees (connection L.state service.now) (stage L.state self.old) piece.now }
        ensures ours { IsOurs (arc_value service.now.board) self.new.pass }
        ensures used { IfOk result (λ used. (0 < used) × (used ≤ length piece.now)) }
        ensures goes_on { MatchResult result
            (λ used. Talks C.shows C.agrees (connection L.state service.now) (stage L.state self.new) (drop used piece.now))
            (λ why. EndsBy C.shows C.agrees (connection L.state service.now) why (L.state self.new.link) (known_by self.new.pass self.new.viewer) self.new.requests) }
    {
        let Fed { used, got } = self.reader.feed(piece);
        match self.handle(service, got) {
            Ok(()) => Ok(used),
            Err(why) => Err(why),
        }
    }

    // Takes a whole piece that was read.
    fn take_piece<R: Wait, Cl: Clock, G: Gate>(
        &mut self,
        service: &Service<R, Served<C>, Cl, G, L, Viewer<C::Pair>>,
        piece: &[u8],
    ) -> Result<(), Cause>
        requires ours { IsOurs (arc_value service.now.board) self.old.pass }
        requires agent { (0 < service.now.agent) × (service.now.agent ≤ C.agents) }
        requires talks { Talks C.shows C.agrees (connection L.state service.now) (stage L.state self.old) piece.now }
        ensures ours { IsOurs (arc_value service.now.board) self.new.pass }
        ensures goes_on { GoesOn C.shows C.agrees (connection L.state service.now) result (stage L.state self.new) [] }
    {
        let mut done = 0;
        while done < piece.len() {
            match self.take_some(service, &piece[done..]) {
                Ok(used) => done += used,
                Err(why) => return Err(why),
            }
        }
        Ok(())
    }

    // Reads the next bytes, and says how many.
    fn read_some<R, Cl, G>(
        &mut self,
        service: &Service<R, Served<C>, Cl, G, L, Viewer<C::Pair>>,
        buffer: &mut [u8],
    ) -> Result<usize, Cause>
        requires room { 0 < length buffer.old }
        requires talks { Talks C.shows C.agrees (connection L.state service.now) (stage L.state self.old) [] }
        ensures most { IfOk result (λ n. n ≤ length buffer.new) }
        ensures room { length buffer.new ≡ length buffer.old }
        ensures pass { (self.new.pass ≡ self.old.pass) × (self.new.viewer ≡ self.old.viewer) }
        ensures goes_on { MatchResult result
            (λ n. Talks C.shows C.agrees (connection L.state service.now) (stage L.state self.new) (take n buffer.new))
            (λ why. EndsBy C.shows C.agrees (connection L.state service.now) why (L.state self.new.link) (known_by self.new.pass self.new.viewer) self.new.requests) }
    {
        match read_next(&mut self.link, awaited(&self.reader), buffer) {
            Ok(0) => Err(Cause::Closed),
            Ok(count) => Ok(count),
            Err(Failed) => Err(Cause::ReadFault),
        }
    }

    /// Serves the connection to its end, and says why it ended.
    pub(crate) fn serve<R: Wait, Cl: Clock, G: Gate>(
        &mut self,
        service: &Service<R, Served<C>, Cl, G, L, Viewer<C::Pair>>,
    ) -> Cause
        requires ours { IsOurs (arc_value service.now.board) self.old.pass }
        requires agent { (0 < service.now.agent) × (service.now.agent ≤ C.agents) }
        requires talks { Talks C.shows C.agrees (connection L.state service.now) (stage L.state self.old) [] }
        ensures ours { IsOurs (arc_value service.now.board) self.new.pass }
        ensures ends { EndsBy C.shows C.agrees (connection L.state service.now) result (L.state self.new.link) (known_by self.new.pass self.new.viewer) self.new.requests }
    {
        let mut buffer = [0; ROOM];
        for _ in service.rt.forever() {
            match self.read_some(service, &mut buffer) {
                Ok(count) => match self.take_piece(service, &buffer[..count]) {
                    Ok(()) => {}
                    Err(why) => return why,
                },
                Err(why) => return why,
            }
        }
        unreachable!()
    }
}
