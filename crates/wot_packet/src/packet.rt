//! The types of this crate: a packet, why no packet can be read at an offset, and the errors of reading.
//!
//! The numbers of the reasons are defined in `specs/Why.antt`; `docs/PROTOCOL.md` lists them for `refused packet`.
ghost use Rattle.std.specs.Prelude.{◌≡◌};
ghost use Rattle.wot_packet.specs.Why.{number_of};
ghost use Rattle.wot_packet.specs.declared.packet.ReadFault.TheVariants.{Memory};

use std::alloc::{AllocError, AllocFailed};

/// A packet of a text (RFC 9580, section 4.2).
#[derive(Clone, Copy, Debug, PartialEq, Eq)]
pub struct Packet<'a> {
    /// Its type, 0 to 63.
    pub kind: u8,
    /// The offset of its first octet in the text.
    pub at: usize,
    /// The octets of the text after the header.
    pub body: &'a [u8],
}

/// Why no packet can be read at an offset.
#[derive(Clone, Copy, Debug, PartialEq, Eq)]
pub enum Why {
    /// Bit 7 of the first octet is clear.
    NotAPacket = 1,
    /// The text ends before the last octet of the length.
    CutLength = 2,
    /// The text ends before the last octet of the body.
    CutBody = 3,
    /// The length is partial (section 4.2.1.4).
    Partial = 4,
    /// The length is indeterminate (section 4.2.2.4).
    Indeterminate = 5,
}

impl Why {
    /// The number of the reason in a reply.
    pub fn number(self) -> u8
        ensures { result ≡ number_of self }
    {
        self as u8
    }
}

/// Where, and why, no packet can be read.
#[derive(Clone, Copy, Debug, PartialEq, Eq)]
pub struct PacketFault {
    /// The offset at which no packet begins.
    pub at: usize,
    pub why: Why,
}

/// Why a text wasn't read.
#[derive(Clone, Copy, Debug, PartialEq, Eq)]
pub enum ReadFault {
    /// The text isn't a list of packets; this is its first fault.
    Packet(PacketFault),
    /// Out of memory.
    Memory,
}

impl From<AllocError> for ReadFault {
    ghost from_gives = { λ _ fault. fault ≡ Memory };

    fn from(_: AllocError) -> ReadFault {
        ReadFault::Memory
    }
}

impl<T: Drop> From<AllocFailed<T>> for ReadFault {
    ghost from_gives = { λ _ fault. fault ≡ Memory };

    fn from(_: AllocFailed<T>) -> ReadFault {
        ReadFault::Memory
    }
}
