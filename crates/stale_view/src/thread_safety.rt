//! That a publisher and its viewers may go to other threads, as clauses name it. Each part of what they show has a function
//! of its own, since a search over the whole at once gives up.

ghost use denote.Param.Send.{IsSend, IsSync};
ghost use Rattle.kv_table.specs.contracts.table.KvTable as kv;
ghost use Rattle.catalog_table.specs.contracts.table.CatalogTable as catalog;
ghost use Rattle.session_table.specs.contracts.table.SessionTable as sessions;
ghost use Rattle.query_table.specs.contracts.table.QueryTable as queries;
ghost use Rattle.touch_positions.specs.contracts.index.TableIndex as indexes;
ghost use Rattle.cat_model.specs.contracts.command.Command as command;
ghost use Rattle.cat_model.specs.contracts.shared.Shared as shared;
ghost use Rattle.catalog_store.specs.contracts.store.Store as store;
ghost use Rattle.stale_view.specs.contracts.history.Front as front;
ghost use Rattle.stale_view.specs.contracts.publisher.Publisher as publisher;
ghost use Rattle.stale_view.specs.contracts.side.Op as op;
ghost use Rattle.stale_view.specs.contracts.side.Side as side;
ghost use Rattle.stale_view.specs.contracts.viewer.Viewer as viewer;

use crate::history::Front;
use crate::names::PairName;
use crate::publisher::Publisher;
use crate::side::{Op, Side};
use crate::viewer::Viewer;
use cat_model::{Command, Shared};
use catalog_store::Store;
use catalog_table::CatalogTable;
use kv_table::KvTable;
use query_table::QueryTable;
use session_table::SessionTable;
use std::sync::Wait;
use touch_positions::TableIndex;

// What may go to another thread, as clauses name it.
fn sends<T: Send + 'static>()
    ensures { IsSend T.row }
{}

// What threads may share.
fn shares<T: Sync + 'static>()
    ensures { IsSync T.row }
{}

fn kv_sends()
    ensures { IsSend kv.the_row }
{
    sends::<KvTable>();
}

fn catalog_sends()
    ensures { IsSend catalog.the_row }
{
    sends::<CatalogTable>();
}

fn sessions_send()
    ensures { IsSend sessions.the_row }
{
    sends::<SessionTable>();
}

fn queries_send()
    ensures { IsSend queries.the_row }
{
    sends::<QueryTable>();
}

fn indexes_send()
    ensures { IsSend indexes.the_row }
{
    sends::<TableIndex>();
}

fn commands_send()
    ensures { IsSend (shared.the_row command.the_row) }
{
    sends::<Shared<Command>>();
}

fn stores_send()
    ensures { IsSend store.the_row }
{
    kv_sends();
    catalog_sends();
    sessions_send();
    queries_send();
    indexes_send();
    commands_send();
    sends::<Store>();
}

fn kv_shares()
    ensures { IsSync kv.the_row }
{
    shares::<KvTable>();
}

fn catalog_shares()
    ensures { IsSync catalog.the_row }
{
    shares::<CatalogTable>();
}

fn sessions_share()
    ensures { IsSync sessions.the_row }
{
    shares::<SessionTable>();
}

fn queries_share()
    ensures { IsSync queries.the_row }
{
    shares::<QueryTable>();
}

fn indexes_share()
    ensures { IsSync indexes.the_row }
{
    shares::<TableIndex>();
}

fn commands_share()
    ensures { IsSync (shared.the_row command.the_row) }
{
    shares::<Shared<Command>>();
}

fn stores_share()
    ensures { IsSync store.the_row }
{
    kv_shares();
    catalog_shares();
    sessions_share();
    queries_share();
    indexes_share();
    commands_share();
    shares::<Store>();
}

fn fronts_send()
    ensures { IsSend front.the_row }
{
    sends::<Front>();
}

fn fronts_share()
    ensures { IsSync front.the_row }
{
    shares::<Front>();
}

fn sides_send()
    ensures { IsSend side.the_row }
{
    stores_send();
    fronts_send();
    sends::<Side>();
}

fn sides_share()
    ensures { IsSync side.the_row }
{
    stores_share();
    fronts_share();
    shares::<Side>();
}

fn operations_send()
    ensures { IsSend op.the_row }
{
    commands_send();
    fronts_send();
    sends::<Op>();
}

/// A law, which does nothing: the copies of the tables may go to other threads and be shared by them, and what is done to
/// them may go to other threads; and so with beginnings of the history.
pub fn parts_cross()
    ensures side { IsSend side.the_row }
    ensures shared { IsSync side.the_row }
    ensures op { IsSend op.the_row }
    ensures front { IsSend front.the_row }
    ensures fronts { IsSync front.the_row }
{
    sides_send();
    sides_share();
    operations_send();
    fronts_send();
    fronts_share();
}

/// A law, which does nothing: a viewer may go to another thread.
pub fn viewers_send<J: PairName + Send + Sync + 'static>()
    ensures { IsSend (viewer.the_row J.row J.PairName) }
{
    parts_cross();
    sends::<Viewer<J>>();
}

/// A law, which does nothing: a publisher may go to another thread.
pub fn publishers_send<J: PairName + Send + Sync + 'static, R: Wait + Drop + Send + 'static>()
    ensures { IsSend (publisher.the_row J.row R.row J.PairName) }
{
    parts_cross();
    sends::<Publisher<J, R>>();
}
