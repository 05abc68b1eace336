//! What a reply says of the leader.

ghost use Rattle.std.specs.Prelude.{◌≡◌, None, is_some};
ghost use Rattle.cat_model.specs.Role.{leads};
ghost use Rattle.cluster_rules.specs.Cluster.{clock_of, contact_of, item_of, knows, node_of, since};
ghost use Rattle.raft_world.specs.Steps.{IsNumber};

use crate::kinds::is_stale;
use cat_model::Kind;
use cluster_replicas::Servers;
use outside::Keeper;

// The server is a leader by its role.
fn leads<K: Keeper>(servers: &Servers<K>, server: u32) -> bool
    requires { IsNumber server servers.now.world }
    ensures { result ≡ leads (node_of servers.now.world server).role }
{
    servers.node(server).role().leads()
}

// The server holds another one for leader.
fn follows<K: Keeper>(servers: &Servers<K>, server: u32) -> bool
    requires { IsNumber server servers.now.world }
    ensures { result ≡ is_some (node_of servers.now.world server).leader }
{
    servers.node(server).leader().is_some()
}

/// Whether a leader is known to a server that answers so.
pub fn knows_leader<K: Keeper>(servers: &Servers<K>, server: u32, kind: &Kind) -> bool
    requires { IsNumber server servers.now.world }
    ensures { result ≡ knows servers.now.world server kind.now }
{
    match kind {
        Kind::At { mode, .. } => !is_stale(*mode)
            || leads(servers, server)
            || follows(servers, server),
        _ => false,
    }
}

// The milliseconds since the server last accepted an Append, and 0 where it never did.
fn since_append<K: Keeper>(servers: &Servers<K>, server: u32) -> u64
    requires { IsNumber server servers.now.world }
    ensures { result ≡ since (item_of None servers.now.world.contacts server) (clock_of servers.now.world server) }
{
    match servers.contact(server) {
        None => 0,
        Some(last) => servers.clock(server).saturating_sub(last),
    }
}

/// The milliseconds since the last contact with the leader, of a server that answers so.
pub fn last_contact<K: Keeper>(servers: &Servers<K>, server: u32, kind: &Kind) -> u64
    requires { IsNumber server servers.now.world }
    ensures { result ≡ contact_of servers.now.world server kind.now }
{
    match kind {
        Kind::At { .. } => {
            if leads(servers, server) {
                0
            } else {
                since_append(servers, server)
            }
        }
        _ => 0,
    }
}
