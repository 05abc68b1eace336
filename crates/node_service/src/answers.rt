//! What a host answers to the frames that came to it.

ghost use Rattle.std.specs.Prelude.{◌≡◌, Some, false, IfOk, OnErr};
ghost use Rattle.peer_frames.specs.Spelling.{Accepts};
ghost use Rattle.peer_frames.specs.declared.frame.Frame.TheVariants as frames;
ghost use Rattle.node_service.specs.Answering.{AnswersFrame, IsAnswered, nothing, peers_of, state_of};

use cat_model::{Command, Memory, Shared};
use node_link::Host;
use outside::Keeper;
use peer_frames::{Frame, Why};
use raft_model::Place;
use raft_node::ProposeFault;
use std::alloc::Global;

/// What becomes of a frame.
#[derive(Debug, Drop)]
pub struct Answer {
    /// The frame that is answered on the link that brought it. A peer's message has none: what the node says to it waits
    /// in the outbox.
    pub frame: Option<Frame>,
    /// Whether the node granted a vote.
    pub granted: bool,
}

impl Answer {
    fn nothing() -> Answer
        ensures { result ≡ nothing }
    {
        Answer {
            frame: None,
            granted: false,
        }
    }

    fn of(frame: Frame) -> Answer
        ensures { result ≡ record { frame = Some frame; granted = false } }
    {
        Answer {
            frame: Some(frame),
            granted: false,
        }
    }
}

/// Answers a frame that the host's reader accepted.
pub fn answer_frame<K: Keeper + Drop>(
    host: &mut Host<K>,
    alloc: Global,
    frame: &Frame,
) -> Result<Answer, Memory>
    requires { Accepts (peers_of host.old) frame.now }
    ensures { AnswersFrame host.old frame.now result host.new }
{
    match frame {
        Frame::Peer { sender, message } => {
            let granted = host.receive(alloc, *sender, message)?;
            Ok(Answer {
                frame: None,
                granted,
            })
        }
        Frame::Propose { command } => propose(host, alloc, command.share()?),
        Frame::Status => Ok(Answer::of(state(host))),
        Frame::Placed { .. } | Frame::Refused { .. } | Frame::State { .. } => Ok(Answer::nothing()),
    }
}

// The place of the command's entry, or why there is none.
fn propose<K: Keeper + Drop>(
    host: &mut Host<K>,
    alloc: Global,
    command: Shared<Command>,
) -> Result<Answer, Memory>
    ensures answered { IfOk result (λ answer. IsAnswered host.old (frames.Propose command) answer host.new) }
    ensures memory { OnErr result (host.new ≡ host.old) }
{
    let why = match host.propose(alloc, command) {
        Ok(Place { index, term }) => return Ok(Answer::of(Frame::Placed { index, term })),
        Err(ProposeFault::NotLeader) => Why::NotLeader,
        Err(ProposeFault::Full) => Why::Full,
        Err(ProposeFault::Halted) => Why::Halted,
        Err(ProposeFault::Memory) => return Err(Memory),
    };
    Ok(Answer::of(Frame::Refused { why }))
}

fn state<K: Keeper + Drop>(host: &Host<K>) -> Frame
    ensures { result ≡ state_of host.now }
{
    let status = host.status();
    Frame::State {
        term: status.term,
        role: status.role,
        commit: status.commit,
        last: status.last,
    }
}
