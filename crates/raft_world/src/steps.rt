//! What becomes of the world once a server has made a step.

ghost use Rattle.std.specs.Prelude.{◌≡◌, ◌+◌, ◌^◌, ◌<◌, ◌≤◌, length, get_or, set, min, if◌then◌else◌, Some};
ghost use Rattle.raft_model.specs.Node as model;
ghost use Rattle.raft_model.specs.World.{posted_all, says_yes};
ghost use Rattle.raft_world.specs.Agreeing.{grown};

use crate::agreed::Agreed;
use crate::bag::Bag;
use cat_model::List;
use outside::Keeper;
use raft_model::{Message, Sent};
use raft_node::Node;

// A Yes is the first that a server sends where it accepts an Append.
fn says_yes(sent: &List<Sent>) -> bool
    ensures { result ≡ says_yes sent.now }
{
    match sent.as_slice().first() {
        Some(first) => matches!(first.message, Message::Yes { .. }),
        None => false,
    }
}

/// The node at a place has made a step and sends these: its contact is noted where it says Yes, what it sends goes into
/// the bag, and what it has committed is agreed. It takes no memory.
pub(crate) fn settle<K: Keeper>(
    nodes: &[Node<K>],
    clocks: &[u64],
    contacts: &mut [Option<u64>],
    bag: &mut Bag,
    agreed: &mut Agreed,
    at: usize,
    sent: List<Sent>,
)
    requires place { at < length nodes.now }
    requires small { length nodes.now < 2 ^ 32 }
    requires clocks { length clocks.now ≡ length nodes.now }
    requires contacts { length contacts.old ≡ length nodes.now }
    ensures contacts { contacts.new ≡ (if says_yes sent then set contacts.old at (Some (get_or clocks.now at 0)) else contacts.old) }
    ensures bag { bag.new ≡ posted_all (at + 1) sent bag.old }
    ensures agreed { (n : model.Node) → get_or nodes.now at n ≡ n → agreed.new ≡ grown agreed.old at (min n.commit (length n.log)) }
{
    if says_yes(&sent) {
        contacts[at] = Some(clocks[at]);
    }
    bag.post_all(at as u32 + 1, sent);
    let node = &nodes[at];
    agreed.grow(at, node.commit().min(node.last()) as usize);
}

/// The place of a server in the lists by server.
pub(crate) fn place(s: u32) -> usize
    requires { 1 ≤ s }
    ensures { result + 1 ≡ s }
{
    s as usize - 1
}
