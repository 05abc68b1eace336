//! Who leads in a cluster that serves over durable stores that fail no call: server 1, and nobody else.

ghost use Rattle.std.specs.Prelude.{◌≡◌, ◌≢◌, ◌<◌, ◌≤◌, ◌⊎◌, ℕ, Bool, List, None, Some, length, true};
ghost use Rattle.cat_model.specs.declared.reply.Kind.TheVariants.{Refused};
ghost use Rattle.cat_model.specs.declared.reply.Mark.TheVariants.{Answered};
ghost use Rattle.cat_model.specs.declared.reply.Refusal.TheVariants.{NotReady};
ghost use Rattle.cat_model.specs.declared.reply.Refusal.{Refusal};
ghost use Rattle.cluster_rules.specs.Cluster.{Cluster, node_of, runs_leading};
ghost use Rattle.cluster_rules.specs.Due.{due};
ghost use Rattle.cluster_rules.specs.Reached.{AreSure, MayBegin};
ghost use Rattle.cluster_rules.specs.Requests.{is_ready};
ghost use Rattle.cluster_rules.specs.Sound.{IsAmong};
ghost use Rattle.raft_model.specs.Facts.{IsReady};
ghost use Rattle.raft_model.specs.Node.{Kept, Store};
ghost use Rattle.raft_model.specs.World.{AreEmpty, HoldAll, nothing_kept};
ghost use Rattle.rerun_rules.specs.Leading.{CameBad, Election, FindsLeader, IsAheadBy, IsForemost, LaterElection};
ghost use Rattle.rerun_rules.specs.Leading.{OnlyFirstLeads, TellsLoss, WasAt};
ghost use Rattle.run_rules.specs.Serving.{Serves, Size};

/// Empty stores hold no term that is above server 1's.
pub fn empty_stores_are_foremost()
    ensures { (stores : List Store) → AreEmpty stores → IsForemost stores }
{}

/// Nor do the stores that a cluster leaves that served over such ones, so the same holds of the next run over them.
pub fn stores_left_are_foremost()
    ensures { (size : Size) (c : Cluster) (stores : List Store) → AreSure size.stores → IsForemost size.stores →
        MayBegin size.stores → Serves size c → HoldAll stores c.world.nodes → IsForemost stores }
{}

/// Nobody but server 1 ever stands for election or leads, and nobody halts.
pub fn nobody_else_leads()
    ensures { (size : Size) (c : Cluster) → AreSure size.stores → IsForemost size.stores → Serves size c →
        OnlyFirstLeads c.world }
{}

/// Where server 1 led at any time of the run, it leads still, in the same term.
pub fn a_leader_stays()
    ensures { (size : Size) (c earlier : Cluster) (s : Serves size c) → AreSure size.stores → IsForemost size.stores →
        WasAt earlier s.reached → runs_leading earlier.world 1 ≡ true →
        (runs_leading c.world 1 ≡ true) × ((node_of c.world 1).term ≡ (node_of earlier.world 1).term) }
{}

/// Where server 1 led at any time of the run, a request that asks server 1 now, or a server that held one for leader
/// then, goes to server 1, or if it may be stale it stays where it asked.
pub fn requests_find_the_leader()
    ensures { (size : Size) (c earlier : Cluster) (s : Serves size c) → AreSure size.stores → IsForemost size.stores →
        WasAt earlier s.reached → runs_leading earlier.world 1 ≡ true →
        (asked : ℕ) → (asked ≡ 1) ⊎ ((node_of earlier.world asked).leader ≢ None) → FindsLeader c.world asked }
{}

/// No request is refused because a server halted or lost its leadership, unless it came as none, with just that
/// refusal.
pub fn nothing_is_lost()
    ensures { (size : Size) (c : Cluster) → AreSure size.stores → IsForemost size.stores → Serves size c →
        (number : ℕ) (why : Refusal) (known : Bool) (contact : ℕ) →
        IsAmong (Answered number (Refused why) known contact) c.past → TellsLoss why → CameBad number why c.past }
{}

/// Over empty stores server 1 leads once nothing is on its way any more, where every event was whole and nothing was
/// done behind its timeout but deliveries, each followed by that message's loss; and all others hold it for leader.
/// There are such runs.
pub fn the_first_server_is_elected()
    ensures elected { (e : Election) → runs_leading e.cluster.world 1 ≡ true }
    ensures known { (e : Election) (server : ℕ) → 1 < server → server ≤ length e.cluster.world.nodes →
        (node_of e.cluster.world server).leader ≡ Some 1 }
    ensures possible { Election }
{}

/// From then on each request finds it, whichever server it asks.
pub fn requests_find_the_elected()
    ensures { (e : Election) (c : Cluster) (s : Serves e.size c) → WasAt e.cluster s.reached →
        (asked : ℕ) → 0 < asked → asked ≤ length e.cluster.world.nodes → FindsLeader c.world asked }
{}

/// And server 1 is ready: it has committed an entry of its own term, and where nothing is due there it has applied one.
pub fn the_elected_is_ready()
    ensures committed { (e : Election) (c : Cluster) (s : Serves e.size c) → WasAt e.cluster s.reached →
        IsReady (node_of c.world 1) }
    ensures applied { (e : Election) (c : Cluster) (s : Serves e.size c) → WasAt e.cluster s.reached →
        due 1 c ≡ None → is_ready c 1 ≡ true }
{}

/// So from then on no request is refused because its leader is not ready yet, unless it came as none, with just that
/// refusal.
pub fn nothing_finds_it_unready()
    ensures { (e : Election) (c : Cluster) (s : Serves e.size c) → WasAt e.cluster s.reached →
        (number term last : ℕ) (known : Bool) (contact : ℕ) →
        IsAmong (Answered number (Refused (NotReady term last)) known contact) c.past →
        IsAmong (Answered number (Refused (NotReady term last)) known contact) e.cluster.past
        ⊎ CameBad number (NotReady term last) c.past }
{}

/// Among empty stores server 1's is ahead of all others, in its term and in its log; and where it is so, it is
/// foremost.
pub fn empty_stores_are_ahead()
    ensures empty { (stores : List Store) → AreEmpty stores → IsAheadBy nothing_kept stores }
    ensures foremost { (first : Kept) (stores : List Store) → IsAheadBy first stores → IsForemost stores }
{}

/// Nor is another store ahead of server 1's among those that a cluster leaves that served over such ones.
pub fn stores_left_are_ahead()
    ensures { (size : Size) (c : Cluster) (first : Kept) (stores : List Store) → AreSure size.stores →
        IsAheadBy first size.stores → MayBegin size.stores → Serves size c → HoldAll stores c.world.nodes →
        (left : Kept) × IsAheadBy left stores }
{}

/// Server 1 is elected again over stores that were kept, if its own is ahead and its term can still rise. There are
/// such runs.
pub fn the_first_server_is_elected_again()
    ensures elected { (e : LaterElection) → runs_leading e.cluster.world 1 ≡ true }
    ensures known { (e : LaterElection) (server : ℕ) → 1 < server → server ≤ length e.cluster.world.nodes →
        (node_of e.cluster.world server).leader ≡ Some 1 }
    ensures possible { LaterElection }
{}

/// From then on each request finds it there too, whichever server it asks.
pub fn requests_find_it_again()
    ensures { (e : LaterElection) (c : Cluster) (s : Serves e.size c) → WasAt e.cluster s.reached →
        (asked : ℕ) → 0 < asked → asked ≤ length e.cluster.world.nodes → FindsLeader c.world asked }
{}
