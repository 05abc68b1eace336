//! That threads may share the table of paths, as clauses name it.

ghost use denote.Param.Send.{IsSend, IsSync};
ghost use Rattle.http_routes.specs.contracts.route_requests.Routes as routes;

use crate::Routes;

// What may go to another thread, as clauses name it.
fn sends<T: Send + 'static>()
    ensures { IsSend T.row }
{}

// What threads may share.
fn shares<T: Sync + 'static>()
    ensures { IsSync T.row }
{}

/// A law, which does nothing: the table of paths may go to another thread, and threads may share it.
pub fn routes_cross()
    ensures send { IsSend routes.the_row }
    ensures shared { IsSync routes.the_row }
{
    sends::<Routes>();
    shares::<Routes>();
}
