//! What is read from a body, with its fault as a request's.

ghost use Rattle.std.specs.Prelude.{◌≡◌};
ghost use Rattle.http_routes.specs.Errors.{in_body};

use crate::RouteError;
use json_bodies::ReadError;

/// The same with the fault as a request's.
pub(crate) fn of_body<T: Drop>(read: Result<T, ReadError>) -> Result<T, RouteError>
    ensures { result ≡ in_body read }
{
    match read {
        Ok(value) => Ok(value),
        Err(why) => Err(RouteError::from(why)),
    }
}
