//! How a world begins.

ghost use Rattle.std.specs.Prelude.{◌≡◌, ◌+◌, ◌^◌, ◌<◌, ◌≤◌, ◌∷◌, ◌++◌, [], List as Items, All, IfErr, IfOk, OnOk, length, map, replicate, None};
ghost use Rattle.std.specs.Option.{ForSome};
ghost use Rattle.std.specs.Vec.{vec_capacity};
ghost use Rattle.raft_model.specs.Node as model;
ghost use Rattle.raft_model.specs.World.{Begins, StartAll};
ghost use Rattle.raft_node.specs.Nodes.{KeepsLimits};
ghost use Rattle.raft_node.specs.Steps.{stored};
ghost use Rattle.raft_world.specs.Starting.{AreGivenBack, Stops};

use crate::agreed::Agreed;
use crate::bag::Bag;
use crate::world::World;
use cat_model::{List, Memory};
use outside::{KeepFail, Keeper};
use raft_node::Node;
use std::alloc::Global;

// The room that a world of so many servers takes, and room to hand the stores back.
#[derive(Drop)]
struct Room<K: Keeper> {
    nodes: Vec<Node<K>>,
    back: Vec<K>,
    clocks: Vec<u64>,
    contacts: Vec<Option<u64>>,
    bag: Bag,
}

fn room_for<K: Keeper + Drop>(alloc: Global, servers: usize) -> Result<Room<K>, Memory>
    ensures nodes { IfOk result (λ room. (room.nodes.items ≡ []) × (servers ≤ vec_capacity room.nodes)) }
    ensures back { IfOk result (λ room. (room.back.items ≡ []) × (servers ≤ vec_capacity room.back)) }
    ensures clocks { IfOk result (λ room. room.clocks.items ≡ replicate servers 0) }
    ensures contacts { IfOk result (λ room. room.contacts.items ≡ replicate servers None) }
    ensures bag { IfOk result (λ room. room.bag ≡ record { packets = []; last = 0 }) }
{
    Ok(Room {
        nodes: Vec::with_capacity(alloc, servers)?,
        back: Vec::with_capacity(alloc, servers)?,
        clocks: vec![in alloc; 0; servers]?,
        contacts: vec![in alloc; None; servers]?,
        bag: Bag::new(alloc)?,
    })
}

// Begins the servers of the waiting stores one after the other, up to one that cannot be read.
fn begin<K: Keeper + Drop>(
    alloc: Global,
    servers: u32,
    waiting: &mut Vec<K>,
    nodes: &mut Vec<Node<K>>,
) -> Result<(), (K, KeepFail)>
    requires few { length waiting.old.items < 2 ^ 32 }
    requires room { length waiting.old.items ≤ vec_capacity nodes.old }
    requires empty { nodes.old.items ≡ [] }
    requires limits { All (λ k. ForSome (K.held k) KeepsLimits) waiting.old.items }
    ensures ok { OnOk result (StartAll servers 1 (map (λ k. stored (K.held k) (K.armed k) (K.faults k) (K.sure k)) waiting.old.items) nodes.new.items) }
    ensures err { IfErr result (λ why. Stops servers (map (λ k. stored (K.held k) (K.armed k) (K.faults k) (K.sure k)) waiting.old.items) nodes.new.items why.1 (stored (K.held why.0) (K.armed why.0) (K.faults why.0) (K.sure why.0)) (map (λ k. stored (K.held k) (K.armed k) (K.faults k) (K.sure k)) waiting.new.items)) }
{
    while !waiting.is_empty() {
        let keeper = waiting.remove(0);
        let id = nodes.len() as u32 + 1;
        match Node::start(alloc, id, servers, keeper) {
            Ok(node) => nodes.push_reserved(node),
            Err(why) => return Err(why),
        }
    }
    Ok(())
}

// The stores in their order, once one could not be read.
fn given_back<K: Keeper + Drop>(
    mut back: Vec<K>,
    mut nodes: Vec<Node<K>>,
    keeper: K,
    mut waiting: Vec<K>,
) -> List<K>
    requires empty { back.items ≡ [] }
    requires room { length nodes.items + 1 + length waiting.items ≤ vec_capacity back }
    ensures { map (λ k. stored (K.held k) (K.armed k) (K.faults k) (K.sure k)) result ≡ map (λ (n : model.Node). n.store) nodes.items ++ stored (K.held keeper) (K.armed keeper) (K.faults keeper) (K.sure keeper) ∷ map (λ k. stored (K.held k) (K.armed k) (K.faults k) (K.sure k)) waiting.items }
{
    while !nodes.is_empty() {
        let node = nodes.remove(0);
        back.push_reserved(node.into_keeper());
    }
    back.push_reserved(keeper);
    let Ok(()) = back.append(&mut waiting) else {
        unreachable!()
    };
    List::from(back)
}

impl<K: Keeper + Drop> World<K> {
    /// Servers 1, 2, .. begin with what these stores hold. Where a store cannot be read, or there is no memory, all are
    /// handed back in their order: those before it were read, those behind it were not tried. Lack of memory for the
    /// world itself comes before any is read.
    pub fn new(alloc: Global, keepers: List<K>) -> Result<World<K>, (List<K>, KeepFail)>
        requires few { length keepers < 2 ^ 32 }
        requires limits { All (λ k. ForSome (K.held k) KeepsLimits) keepers }
        ensures ok { IfOk result (Begins (map (λ k. stored (K.held k) (K.armed k) (K.faults k) (K.sure k)) keepers)) }
        ensures back { IfErr result (λ why. AreGivenBack why.1 (map (λ k. stored (K.held k) (K.armed k) (K.faults k) (K.sure k)) keepers) (map (λ k. stored (K.held k) (K.armed k) (K.faults k) (K.sure k)) why.0)) }
    {
        let servers = keepers.len();
        let Ok(room) = room_for(alloc, servers) else {
            return Err((keepers, KeepFail::Memory));
        };
        let mut nodes = room.nodes;
        let mut waiting = keepers.into_vec();
        match begin(alloc, servers as u32, &mut waiting, &mut nodes) {
            Ok(()) => Ok(World {
                nodes,
                clocks: room.clocks,
                contacts: room.contacts,
                bag: room.bag,
                greatest: 0,
                agreed: Agreed::Kept(List::new(alloc)),
            }),
            Err((keeper, fail)) => Err((given_back(room.back, nodes, keeper, waiting), fail)),
        }
    }
}
