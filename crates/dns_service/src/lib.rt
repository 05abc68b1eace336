//! The replies to questions of names (DNS), by the catalog. RFC 1035; RFC 2782; Consul, DNS interface.
//!
//! A packet is a message of RFC 1035, section 4.1, without the two bytes of length that TCP puts in front. The names that
//! are answered end in `consul`, before which the datacenter's name `dc1` may stand:
//!
//! - `SERVICE.service` and `TAG.SERVICE.service`: the service's instances that have no critical check,
//! - `NODE.node`: a node,
//! - `XXXXXXXX.addr`: the IPv4 address of eight hexadecimal digits.
//!
//! Types A and SRV are answered. EDNS, other types and classes, and compressed names in a question are not.
//!
//! # What is proved
//!
//! The reply to a packet is that of the definitions over the catalog that the reader has then read, with at most
//! one query a packet. Carried by: `answer_packet`.
#![tactic(auto)]

mod answers;
mod matches;
mod question;
mod reader;
mod records;
mod reply;
mod sought;

pub use answers::answer_packet;
pub use reader::CatalogReader;
