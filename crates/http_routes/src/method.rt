//! The methods of a path.

ghost use Rattle.std.specs.Prelude.{◌≡◌, ◌||◌, Bool, bytes_eq, codes};
ghost use Rattle.http_routes.specs.Errors.{Gives};
ghost use Rattle.http_routes.specs.Methods.{only};

use crate::target::is;
use crate::{Allow, RouteError};

/// Refuses a method other than GET.
pub(crate) fn get_only(method: &[u8]) -> Result<(), RouteError>
    ensures { Gives result (only (codes "GET") Allow.Get method.now) }
{
    if is(method, "GET") {
        Ok(())
    } else {
        Err(RouteError::Method(Allow::Get))
    }
}

/// Refuses a method other than PUT.
pub(crate) fn put_only(method: &[u8]) -> Result<(), RouteError>
    ensures { Gives result (only (codes "PUT") Allow.Put method.now) }
{
    if is(method, "PUT") {
        Ok(())
    } else {
        Err(RouteError::Method(Allow::Put))
    }
}
