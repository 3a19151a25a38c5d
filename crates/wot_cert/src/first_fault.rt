//! The first fault in a list of packets that isn't a list of certificates.
//!
//! It uses `specs/Fault.antt`. `assemble` asks it before it assembles anything, so nothing is imported from a
//! faulty text.
ghost use Rattle.std.specs.Prelude.{◌≡◌};
ghost use Rattle.wot_packet.specs.Spelling.{spelled_of, spelled_all};
ghost use Rattle.wot_cert.specs.Fault.{first_fault, fault_at};
ghost use Rattle.wot_cert.specs.Packets.{is_component, is_unknown, is_passed_over};

use crate::CertFault;
use wot_packet::Packet;

pub(crate) fn test_component(kind: u8) -> bool
    ensures { result ≡ is_component kind }
{
    kind == 13 || kind == 17 || kind == 14
}

pub(crate) fn test_unknown(kind: u8) -> bool
    ensures { result ≡ is_unknown kind }
{
    kind >= 40 && kind <= 63
}

fn test_passed_over(kind: u8) -> bool
    ensures { result ≡ is_passed_over kind }
{
    kind == 10 || kind == 12 || kind == 21
}

fn fault_of(behind_key: bool, packet: &Packet) -> Option<CertFault>
    ensures { result ≡ fault_at behind_key (spelled_of packet.now) }
{
    let kind = packet.kind;
    if kind == 8 {
        Some(CertFault::Compressed)
    } else if kind == 5 || kind == 7 {
        Some(CertFault::Secret)
    } else if kind == 6 || test_passed_over(kind) || test_unknown(kind) {
        None
    } else if kind == 2 || test_component(kind) {
        if behind_key {
            None
        } else {
            Some(CertFault::Order(packet.at))
        }
    } else {
        Some(CertFault::Kind(kind, packet.at))
    }
}

/// The first fault in the order of the packets.
pub(crate) fn first_fault_of(packets: &[Packet]) -> Option<CertFault>
    ensures { result ≡ first_fault (spelled_all packets.now) }
{
    let mut behind_key = false;
    for packet in packets {
        let fault = fault_of(behind_key, packet);
        if fault.is_some() {
            return fault;
        }
        let is_key = packet.kind == 6;
        behind_key = behind_key || is_key;
    }
    if behind_key {
        None
    } else {
        Some(CertFault::Empty)
    }
}
