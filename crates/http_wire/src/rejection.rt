//! Why a stream of requests is refused.

ghost use Rattle.std.specs.Prelude.{◌≡◌, IfOk};
ghost use Rattle.http_wire.specs.Rejections.{answer_to};

use cat_model::{Memory, Refusal, Text};
use std::alloc::Global;

/// Why the bytes of a stream are refused.
#[derive(Clone, Copy, Debug, PartialEq, Eq)]
pub enum Rejection {
    /// No head can come of the bytes, or a method or target has a byte that is not visible (RFC 9112, section 3).
    Head,
    /// The lengths are no numbers, or differ (RFC 9112, section 6.3).
    ContentLength,
    /// Not one host under version 1.1, or more than one under 1.0 (RFC 9112, section 3.2).
    Host,
    /// The body has more than 1,048,576 bytes.
    TooLarge,
    /// The body comes in a transfer encoding (RFC 9112, section 6.1).
    Unsupported,
    /// The head has more than 64 headers, or more than 16,384 bytes.
    HeadTooLarge,
}

impl Rejection {
    /// The refusal by which this is answered.
    pub fn refusal(self, alloc: Global) -> Result<Refusal, Memory>
        ensures { IfOk result (λ refusal. refusal ≡ answer_to self) }
    {
        Ok(match self {
            Rejection::Head => Refusal::Invalid {
                field: Text::new(alloc, "head")?,
            },
            Rejection::ContentLength => Refusal::Invalid {
                field: Text::new(alloc, "Content-Length")?,
            },
            Rejection::Host => Refusal::Invalid {
                field: Text::new(alloc, "Host")?,
            },
            Rejection::TooLarge => Refusal::TooLarge,
            Rejection::Unsupported => Refusal::Unsupported,
            Rejection::HeadTooLarge => Refusal::HeadTooLarge,
        })
    }
}
