//! OpenPGP packets: their framing, read and written (RFC 9580, section 4.2).
//!
//! It uses `wot_types` for the error of a failed allocation. `wot_cert` assembles certificates from what
//! `read_packets` returns, and exports them by `write_packet`.
#![tactic(auto)]

mod header;
pub mod laws;
mod packet;
mod read;
mod write;

pub use packet::{Packet, PacketFault, ReadFault, Why};
pub use read::read_packets;
pub use write::write_packet;
