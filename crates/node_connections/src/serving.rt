//! A connection, from its first byte to its end.

ghost use Rattle.std.specs.Prelude.{◌≡◌, ◌+◌, ◌<◌, ◌≤◌, [], ℕ, List, IfOk, MatchResult, OnOk, drop, false, length, take};
ghost use Rattle.std.specs.Option.{ForSome};
ghost use Rattle.std.specs.Arc.{arc_value};
ghost use Rattle.serve_outside.specs.Links.{Reads};
ghost use Rattle.node_connections.specs.Boards.{IsOurs, known};
ghost use Rattle.node_connections.specs.Journals.{IsTold};
ghost use Rattle.node_connections.specs.Serving.{EndsBy};
ghost use Rattle.node_connections.specs.Services.{connection, stage};
ghost use Rattle.node_connections.specs.Stages.{Comes, GoesOn, IsTaking, Owes, OwesAnswer, Talks};
ghost use Rattle.node_connections.specs.Turning.{IsReply};

use crate::cause::PeerCause;
use crate::shared::SharedNode;
use crate::turns::hand_in;
use crate::writer::send_answer;
use cat_model::Memory;
use node_service::Dialer;
use outside::{Failed, Keeper};
use peer_frames::{Frame, FrameFed, FrameReader, GotFrame};
use serve_outside::{Awaited, Clock, Link, Words};
use std::alloc::Global;
use std::snapshot::Snapshot;
use std::sync::{Arc, Wait};
use turn_lock::{History, HistoryLock, Pass};

/// How many bytes are read at most in one call.
const ROOM: usize = 16_384;

/// What serves a connection: the board of turns and a clock, and the link, the reader and the pass as they were at first.
#[derive(Drop)]
pub(crate) struct Service<R, S: History, Cl, L> {
    pub rt: R,
    pub alloc: Global,
    pub board: Arc<HistoryLock<S>, Global>,
    pub clock: Cl,
    pub first: Snapshot<L>,
    pub fresh: Snapshot<FrameReader>,
    pub begun: Snapshot<Pass<S>>,
}

/// A connection that is served, and how many frames were answered on it.
#[derive(Drop)]
pub(crate) struct Serving<S: History, W, L> {
    pub words: W,
    pub link: L,
    pub reader: FrameReader,
    pub pass: Pass<S>,
    pub frames: u64,
}

// Takes the next bytes of a link.
fn read_next<L: Link>(link: &mut L, buffer: &mut [u8]) -> Result<usize, Failed>
    requires unshut { (L.state link.old).shut ≡ false }
    ensures { Reads (L.state link.old) buffer.new result (L.state link.new) }
{
    link.expect(Awaited::Message);
    link.read(buffer)
}

impl<K: Keeper + Drop, D: Dialer, W: Words, L: Link> Serving<SharedNode<K, D>, W, L> {
    // Hands a frame in, and gives its answer.
    fn hand_in<R: Wait, Cl: Clock>(
        &mut self,
        service: &Service<R, SharedNode<K, D>, Cl, L>,
        frame: &Frame,
    ) -> Result<Option<Frame>, PeerCause>
        requires ours { IsOurs (arc_value service.now.board) self.old.pass }
        requires owes { (rest : List ℕ) × Owes (connection L.state service.now) (stage L.state self.old) frame.now rest }
        ensures ours { IsOurs (arc_value service.now.board) self.new.pass }
        ensures told { IsTold D.state (known self.new.pass).seen }
        ensures reply { IfOk result (λ answer. ForSome answer IsReply) }
        ensures unshut { (L.state self.new.link).shut ≡ false }
        ensures handed { (rest : List ℕ) → Owes (connection L.state service.now) (stage L.state self.old) frame.now rest
            → MatchResult result
            (λ answer. OwesAnswer (connection L.state service.now) (stage L.state self.new) answer rest)
            (λ why. EndsBy (connection L.state service.now) why (L.state self.new.link) (known self.new.pass) self.new.frames) }
    {
        let now_ms = service.clock.now_ms();
        let word = self.words.draw().lo;
        let pass = &mut self.pass;
        match hand_in(
            &service.rt,
            service.alloc,
            &*service.board,
            pass,
            now_ms,
            word,
            frame,
        ) {
            Ok(answer) => Ok(answer),
            Err(Memory) => Err(PeerCause::Memory),
        }
    }

    // Writes the answer to the frame that was handed in last.
    fn give<R, Cl>(
        &mut self,
        service: &Service<R, SharedNode<K, D>, Cl, L>,
        answer: &Option<Frame>,
    ) -> Result<(), PeerCause>
        requires reply { ForSome answer.now IsReply }
        requires unshut { (L.state self.old.link).shut ≡ false }
        ensures pass { self.new.pass ≡ self.old.pass }
        ensures gives { (rest : List ℕ) → OwesAnswer (connection L.state service.now) (stage L.state self.old) answer.now rest
            → GoesOn (connection L.state service.now) result (stage L.state self.new) rest }
    {
        let Some(frames) = self.frames.checked_add(1) else {
            return Err(PeerCause::Memory);
        };
        match send_answer(&mut self.link, service.alloc, answer) {
            Ok(()) => {
                self.frames = frames;
                Ok(())
            }
            Err(why) => Err(why),
        }
    }

    // Hands a frame in, and writes its answer.
    fn answer<R: Wait, Cl: Clock>(
        &mut self,
        service: &Service<R, SharedNode<K, D>, Cl, L>,
        frame: &Frame,
    ) -> Result<(), PeerCause>
        requires ours { IsOurs (arc_value service.now.board) self.old.pass }
        requires told { IsTold D.state (known self.old.pass).seen }
        requires owes { (rest : List ℕ) × Owes (connection L.state service.now) (stage L.state self.old) frame.now rest }
        ensures ours { IsOurs (arc_value service.now.board) self.new.pass }
        ensures told { IsTold D.state (known self.new.pass).seen }
        ensures goes_on { (rest : List ℕ) → Owes (connection L.state service.now) (stage L.state self.old) frame.now rest
            → GoesOn (connection L.state service.now) result (stage L.state self.new) rest }
    {
        match self.hand_in(service, frame) {
            Ok(answer) => {
                let given = self.give(service, &answer);
                drop(answer);
                given
            }
            Err(why) => Err(why),
        }
    }

    // Does what the reader asks for.
    fn handle<R: Wait, Cl: Clock>(
        &mut self,
        service: &Service<R, SharedNode<K, D>, Cl, L>,
        got: GotFrame,
    ) -> Result<(), PeerCause>
        requires ours { IsOurs (arc_value service.now.board) self.old.pass }
        requires told { IsTold D.state (known self.old.pass).seen }
        requires comes { (rest : List ℕ) × Comes (connection L.state service.now) (stage L.state self.old) rest got }
        ensures ours { IsOurs (arc_value service.now.board) self.new.pass }
        ensures told { IsTold D.state (known self.new.pass).seen }
        ensures goes_on { (rest : List ℕ) → Comes (connection L.state service.now) (stage L.state self.old) rest got
            → GoesOn (connection L.state service.now) result (stage L.state self.new) rest }
        ensures taking { OnOk result (IsTaking got) }
    {
        match got {
            GotFrame::More => Ok(()),
            GotFrame::Frame(frame) => {
                let answered = self.answer(service, &frame);
                drop(frame);
                answered
            }
            GotFrame::Bad { at } => Err(PeerCause::Bad { at }),
            GotFrame::Memory => Err(PeerCause::Memory),
        }
    }

    // Takes the first bytes of a piece that is not empty, and says how many.
    fn take_some<R: Wait, Cl: Clock>(
        &mut self,
        service: &Service<R, SharedNode<K, D>, Cl, L>,
        piece: &[u8],
    ) -> Result<usize, PeerCause>
        requires some { 0 < length piece.now }
        requires ours { IsOurs (arc_value service.now.board) self.old.pass }
        requires told { IsTold D.state (known self.old.pass).seen }
        requires talks { Talks (connection L.state service.now) (stage L.state self.old) piece.now }
        ensures ours { IsOurs (arc_value service.now.board) self.new.pass }
        ensures told { IsTold D.state (known self.new.pass).seen }
        ensures used { IfOk result (λ used. (0 < used) × (used ≤ length piece.now)) }
        ensures goes_on { MatchResult result
            (λ used. Talks (connection L.state service.now) (stage L.state self.new) (drop used piece.now))
            (λ why. EndsBy (connection L.state service.now) why (L.state self.new.link) (known self.new.pass) self.new.frames) }
    {
        let FrameFed { used, got } = self.reader.feed(piece);
        match self.handle(service, got) {
            Ok(()) => Ok(used),
            Err(why) => Err(why),
        }
    }

    // Takes a whole piece that was read.
    fn take_piece<R: Wait, Cl: Clock>(
        &mut self,
        service: &Service<R, SharedNode<K, D>, Cl, L>,
        piece: &[u8],
    ) -> Result<(), PeerCause>
        requires ours { IsOurs (arc_value service.now.board) self.old.pass }
        requires told { IsTold D.state (known self.old.pass).seen }
        requires talks { Talks (connection L.state service.now) (stage L.state self.old) piece.now }
        ensures ours { IsOurs (arc_value service.now.board) self.new.pass }
        ensures told { IsTold D.state (known self.new.pass).seen }
        ensures goes_on { GoesOn (connection L.state service.now) result (stage L.state self.new) [] }
    {
        let mut done = 0;
        while done < piece.len() {
            match self.take_some(service, &piece[done..]) {
                Ok(used) => done += used,
                Err(why) => return Err(why),
            }
        }
        Ok(())
    }

    // Reads the next bytes, and says how many.
    fn read_some<R, Cl>(
        &mut self,
        service: &Service<R, SharedNode<K, D>, Cl, L>,
        buffer: &mut [u8],
    ) -> Result<usize, PeerCause>
        requires room { 0 < length buffer.old }
        requires talks { Talks (connection L.state service.now) (stage L.state self.old) [] }
        ensures most { IfOk result (λ n. n ≤ length buffer.new) }
        ensures room { length buffer.new ≡ length buffer.old }
        ensures pass { self.new.pass ≡ self.old.pass }
        ensures goes_on { MatchResult result
            (λ n. Talks (connection L.state service.now) (stage L.state self.new) (take n buffer.new))
            (λ why. EndsBy (connection L.state service.now) why (L.state self.new.link) (known self.new.pass) self.new.frames) }
    {
        match read_next(&mut self.link, buffer) {
            Ok(0) => Err(PeerCause::Closed),
            Ok(count) => Ok(count),
            Err(Failed) => Err(PeerCause::ReadFault),
        }
    }

    /// Serves the connection to its end, and says why it ended.
    pub(crate) fn serve<R: Wait, Cl: Clock>(
        &mut self,
        service: &Service<R, SharedNode<K, D>, Cl, L>,
    ) -> PeerCause
        requires ours { IsOurs (arc_value service.now.board) self.old.pass }
        requires told { IsTold D.state (known self.old.pass).seen }
        requires talks { Talks (connection L.state service.now) (stage L.state self.old) [] }
        ensures ours { IsOurs (arc_value service.now.board) self.new.pass }
        ensures told { IsTold D.state (known self.new.pass).seen }
        ensures ends { EndsBy (connection L.state service.now) result (L.state self.new.link) (known self.new.pass) self.new.frames }
    {
        let mut buffer = [0; ROOM];
        for _ in service.rt.forever() {
            match self.read_some(service, &mut buffer) {
                Ok(count) => match self.take_piece(service, &buffer[..count]) {
                    Ok(()) => {}
                    Err(why) => return why,
                },
                Err(why) => return why,
            }
        }
        unreachable!()
    }
}
