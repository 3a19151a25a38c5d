//! The errors of the keyring's calls, in the order in which they are checked. wot_script has a word for each: a further
//! error is a further reply.
use wot_cert::CertFault;
use wot_packet::PacketFault;
use wot_types::Limit;

/// Why a change was refused. If there are several reasons, the first in this order is returned.
#[derive(Clone, Copy, Debug, PartialEq, Eq)]
pub enum Refusal {
    /// The octets aren't a sequence of packets. This is their first error.
    Packet(PacketFault),
    /// The packets aren't certificates. This is their first error, and never "out of memory".
    Cert(CertFault),
    /// A directory entry isn't the one certificate that its name demands.
    Misfiled,
    /// Two keys have the same fingerprint.
    Clash,
    /// This limit would be exceeded.
    Full(Limit),
    /// Out of memory.
    Memory,
}

/// What was named isn't in the keyring.
#[derive(Clone, Copy, Debug, PartialEq, Eq)]
pub struct Absent;

/// Why a certificate was not exported.
#[derive(Clone, Copy, Debug, PartialEq, Eq)]
pub enum ExportFault {
    /// It isn't in the keyring.
    Absent,
    /// Out of memory.
    Memory,
}
