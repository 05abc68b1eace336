//! HTTP messages on a stream of bytes (RFC 9112): requests read from pieces cut anywhere, and replies written.
//!
//! # What is proved
//!
//! However a stream is cut, what its reader gives are the stream's messages, with a `Continue` where a head asks
//! for it, up to the first refusal with its cause; the reader keeps at most 1,064,960 bytes; a reply's bytes are
//! its lines and its body. Carried by: clauses of `RequestReader`, `decode` and `write_reply`.
#![tactic(auto)]

mod head;
mod judge;
mod limits;
mod lines;
mod partial;
mod reader;
mod rejection;
mod reply;
mod search;
mod stream;

pub use partial::{Fed, Got, RawRequest};
pub use reader::RequestReader;
pub use rejection::Rejection;
pub use reply::{write_continue, write_head, write_reply};
pub use stream::{Decoded, Item, decode};
