//! The parts of a target.

ghost use Rattle.std.specs.Prelude.{◌≡◌, bytes_eq};
ghost use Rattle.form_urlencoded.specs.Form.{split_once};
ghost use Rattle.http_routes.specs.Errors.{Gives};
ghost use Rattle.http_routes.specs.Targets.{text_of};

use crate::{Parameter, RouteError};
use cat_model::Text;
use percent_encoding::{DecodeError, percent_decode};
use std::alloc::Global;

/// What stands before the first such byte, and what behind it.
pub(crate) fn split(bytes: &[u8], at: u8) -> (&[u8], &[u8])
    ensures before { result.0.now ≡ (split_once at bytes.now).0 }
    ensures behind { result.1.now ≡ (split_once at bytes.now).1 }
{
    match bytes.iter().position(|byte| *byte == at) {
        Some(end) => (&bytes[..end], &bytes[end + 1..]),
        None => (bytes, &[]),
    }
}

/// Whether the bytes are just this text.
pub(crate) fn is(bytes: &[u8], text: &str) -> bool
    ensures { result ≡ bytes_eq bytes.now text.now }
{
    bytes == text.as_bytes()
}

/// The text of a path's parameter.
#[tactic(auto, using(crate::proofs::Texts::text_ok, crate::proofs::Texts::text_err))]
pub(crate) fn decoded(alloc: Global, part: &[u8], parameter: Parameter) -> Result<Text, RouteError>
    ensures { Gives result (text_of parameter part.now) }
{
    match percent_decode(part).decode_utf8(alloc) {
        Ok(text) => Ok(Text::from(text.into_owned(alloc)?)),
        Err(DecodeError::OutOfMemory) => Err(RouteError::Memory),
        Err(DecodeError::Utf8(_)) => Err(RouteError::Target(parameter)),
    }
}
