//! What all connections of a run share, and why a run stops.

ghost use Rattle.std.specs.Prelude.{◌≡◌, ◌+◌, ◌++◌, ◌∷◌};
ghost use Rattle.std.specs.Arc.{arc_value};
ghost use Rattle.turn_lock.specs.Rule.{pooled};
ghost use Rattle.http_exchanges.specs.Boards.{IsOurs, known};

use http_exchanges::{Board, Finished, ServeJob, Served, SharedCluster};
use http_routes::Routes;
use serve_outside::{NoteOf, Task};
use stale_view::Viewer;
use std::alloc::Global;
use std::sync::Arc;
use turn_lock::{History, Pass};

/// Why no more connections were accepted, or not all of them were served to their end.
#[derive(Clone, Copy, Debug, PartialEq, Eq)]
pub enum Stop {
    /// The listener failed. It has counted the fault.
    Listener,
    /// There was no memory for one more connection, or no share of the pass, or a connection ended for lack of memory.
    Memory,
}

// A connection's task.
pub(crate) type TaskOf<R, C, Cl, G, L> = Task<
    NoteOf<ServeJob<R, Served<C>, Cl, G, L, Viewer<<C as SharedCluster>::Pair>>>,
    Finished<L, Served<C>, Viewer<<C as SharedCluster>::Pair>>,
>;

/// The jobs of a run that are not joined yet.
#[derive(Drop)]
pub(crate) struct Jobs<T> {
    pub tasks: Vec<T>,
    /// The place of the one that is looked at next.
    pub at: usize,
    /// Whether a connection whose job was joined ended for lack of memory.
    pub short: bool,
}

/// What all connections of a run share.
#[derive(Drop)]
pub struct Server<R, S: History, Cl, G, V> {
    pub rt: R,
    pub alloc: Global,
    pub board: Arc<Board<S>, Global>,
    pub clock: Cl,
    pub gate: Arc<G, Global>,
    /// The table of paths, which all connections look up in.
    pub routes: Arc<Routes, Global>,
    /// How many agents there are.
    pub agents: u32,
    /// The viewer from which all others are split.
    pub viewer: V,
}

// Puts a pass back.
pub(crate) fn give_back<R, C: SharedCluster, Cl, G>(
    server: &Server<R, Served<C>, Cl, G, Viewer<C::Pair>>,
    pass: &mut Pass<Served<C>>,
    other: Pass<Served<C>>,
)
    requires ours { IsOurs (arc_value server.now.board) pass.old }
    requires theirs { IsOurs (arc_value server.now.board) other }
    ensures ours { IsOurs (arc_value server.now.board) pass.new }
    ensures mine { (known pass.new).mine ≡ (known pass.old).mine ++ (known other).mine }
    ensures shares { pass.new.shares ≡ pooled pass.old.shares other.shares }
    ensures told { (known pass.new).told ≡ (known other).seen ∷ ((known pass.old).told ++ (known other).told) }
{
    let lock = &**server.board;
    lock.join(pass, other);
}
