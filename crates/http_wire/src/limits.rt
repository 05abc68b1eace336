//! How large a request may be.

/// The most bytes of a head.
pub(crate) const HEAD_BYTES: usize = 16384;

/// The most headers of a head, for which there is room as a head is read.
pub(crate) const HEADERS: usize = 64;

/// The most bytes of a body.
pub(crate) const BODY_BYTES: u64 = 1048576;

/// Room for more headers than the bytes of a head can hold, for heads that have too many.
pub(crate) const SPANS: usize = 8192;
