//! Datagrams from outside, as traits that tell what their calls did. They are there in memory, and over the machine.
//!
//! # What is proved
//!
//! A port tells each packet that it gave with its peer, each that it sent with the peer that it went to, and counts
//! its faults; ports come back. Carried by: clauses of `DatagramPort` and `Datagrams`, and their memory forms.
#![tactic(auto)]

mod mem_port;
mod mem_ports;
mod port;
#[cfg(test)]
mod tests;
mod udp;

pub use mem_port::{MemPort, Packet};
pub use mem_ports::{MemPorts, PortScript};
pub use port::{DatagramPort, Datagrams};
pub use udp::{UdpPort, UdpPorts};
