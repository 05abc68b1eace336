//! That a cluster may go to another thread if its stores may, as the turns of a server ask. Each part of it has a
//! function of its own, since a search over the whole at once gives up.

ghost use denote.Param.Send.{IsSend};
ghost use Rattle.kv_table.specs.contracts.table.KvTable as kv;
ghost use Rattle.catalog_table.specs.contracts.table.CatalogTable as catalog;
ghost use Rattle.session_table.specs.contracts.table.SessionTable as sessions;
ghost use Rattle.query_table.specs.contracts.table.QueryTable as queries;
ghost use Rattle.touch_positions.specs.contracts.index.TableIndex as indexes;
ghost use Rattle.cat_model.specs.contracts.command.Command as command;
ghost use Rattle.cat_model.specs.contracts.request.Asked as asked;
ghost use Rattle.cat_model.specs.contracts.shared.Shared as shared;
ghost use Rattle.catalog_store.specs.contracts.store.Store as store;
ghost use Rattle.cat_model.specs.contracts.applied.Applied as applied;
ghost use Rattle.applied_state.specs.contracts.lock_delay.LockDelay as delays;
ghost use Rattle.session_ttl.specs.contracts.office.Office as office;
ghost use Rattle.session_ttl.specs.contracts.timers.SessionTimers as timers;
ghost use Rattle.applied_state.specs.contracts.replica.Replica as replica;
ghost use Rattle.agent_state.specs.contracts.agent.Agent as agent;
ghost use Rattle.cluster_requests.specs.contracts.content.Content as content;
ghost use Rattle.cluster_requests.specs.contracts.out.Out as out;
ghost use Rattle.cluster_requests.specs.contracts.requests.Requests as requests;
ghost use Rattle.raft_world.specs.contracts.world.World as world;
ghost use Rattle.cluster_replicas.specs.contracts.servers.Servers as servers;
ghost use Rattle.read_watch.specs.contracts.registry.WatchRegistry as registry;
ghost use Rattle.timer_wheel.specs.contracts.wheel.TimerWheel as wheel;
ghost use Rattle.read_watch.specs.contracts.watch.Watch as watch;
ghost use Rattle.cluster.specs.contracts.cluster.Cluster as cluster;

use agent_state::Agent;
use applied_state::{LockDelay, Replica};
use cat_model::{Applied, Asked, Command, Shared};
use catalog_store::Store;
use catalog_table::CatalogTable;
use cluster::Cluster;
use cluster_replicas::Servers;
use cluster_requests::{Content, Out, Requests};
use kv_table::KvTable;
use outside::Keeper;
use query_table::QueryTable;
use raft_world::World;
use read_watch::{Watch, WatchRegistry};
use session_table::SessionTable;
use session_ttl::{Office, SessionTimers};
use timer_wheel::TimerWheel;
use touch_positions::TableIndex;

// What may go to another thread, as clauses name it.
fn sends<T: Send + 'static>()
    ensures { IsSend T.row }
{}

fn kv_sends()
    ensures { IsSend kv.the_row }
{
    sends::<KvTable>();
}

fn catalog_sends()
    ensures { IsSend catalog.the_row }
{
    sends::<CatalogTable>();
}

fn sessions_send()
    ensures { IsSend sessions.the_row }
{
    sends::<SessionTable>();
}

fn queries_send()
    ensures { IsSend queries.the_row }
{
    sends::<QueryTable>();
}

fn indexes_send()
    ensures { IsSend indexes.the_row }
{
    sends::<TableIndex>();
}

fn commands_send()
    ensures { IsSend (shared.the_row command.the_row) }
{
    sends::<Shared<Command>>();
}

fn stores_send()
    ensures { IsSend store.the_row }
{
    kv_sends();
    catalog_sends();
    sessions_send();
    queries_send();
    indexes_send();
    commands_send();
    sends::<Store>();
}

fn applieds_send()
    ensures { IsSend applied.the_row }
{
    sends::<Applied>();
}

fn delays_send()
    ensures { IsSend delays.the_row }
{
    sends::<LockDelay>();
}

fn offices_send()
    ensures { IsSend office.the_row }
{
    sends::<Office>();
}

fn wheels_send()
    ensures { IsSend wheel.the_row }
{
    sends::<TimerWheel>();
}

fn timers_send()
    ensures { IsSend timers.the_row }
{
    wheels_send();
    sends::<SessionTimers>();
}

fn replicas_send()
    ensures { IsSend replica.the_row }
{
    stores_send();
    applieds_send();
    offices_send();
    timers_send();
    delays_send();
    sends::<Replica>();
}

fn agents_send()
    ensures { IsSend agent.the_row }
{
    sends::<Agent>();
}

fn asked_sends()
    ensures { IsSend (shared.the_row asked.the_row) }
{
    sends::<Shared<Asked>>();
}

fn contents_send()
    ensures { IsSend content.the_row }
{
    sends::<Content>();
}

fn outs_send()
    ensures { IsSend out.the_row }
{
    contents_send();
    sends::<Out>();
}

fn requests_send()
    ensures { IsSend requests.the_row }
{
    asked_sends();
    outs_send();
    sends::<Requests>();
}

fn registries_send()
    ensures { IsSend registry.the_row }
{
    sends::<WatchRegistry>();
}

fn watches_send()
    ensures { IsSend watch.the_row }
{
    registries_send();
    wheels_send();
    sends::<Watch>();
}

fn worlds_send<K: Keeper + Drop + Send + 'static>()
    ensures { IsSend (world.the_row K.row ⟦<K as Keeper>⟧) }
{
    sends::<World<K>>();
}

fn servers_send<K: Keeper + Drop + Send + 'static>()
    ensures { IsSend (servers.the_row K.row ⟦<K as Keeper>⟧) }
{
    replicas_send();
    worlds_send::<K>();
    sends::<Servers<K>>();
}

/// A law, which does nothing: a cluster over stores that may go to another thread may go there too.
pub fn clusters_send<K: Keeper + Drop + Send + 'static>()
    ensures { IsSend (cluster.the_row K.row ⟦<K as Keeper>⟧) }
{
    servers_send::<K>();
    agents_send();
    requests_send();
    watches_send();
    sends::<Cluster<K>>();
}
