//! `read_packets`: a text as a list of packets, or its first fault.
//!
//! It uses `header` and the definitions of what a text spells (`specs/Spelling.antt`). Imports, loads and dumps
//! read certificates through it.
ghost use Rattle.std.specs.Prelude.{◌≡◌, ◌<◌, ◌≤◌, ◌*◌, ◌^◌, List, length, IfOk, IfErr};
ghost use Rattle.std.specs.List.{All};
ghost use Rattle.wot_packet.specs.Answers.{Finds, IfPacket, ReturnsAsPlain, AnswersList, AnswersFault};
ghost use Rattle.wot_packet.specs.Reading.{first_of, packets_of};
ghost use Rattle.wot_packet.specs.Seen.{first_seen};
ghost use Rattle.wot_packet.specs.Spelling.{AreShort, Spelled, Spells, IsFirstFault, spelled_all};
ghost use Rattle.wot_packet.specs.declared.packet.PacketFault.{PacketFault};

use crate::header::read_header;
use crate::{Packet, PacketFault, ReadFault, Why};
use std::alloc::Global;

/// Reads the packet at the beginning of the octets, which begin at offset `at`. Returns it with the octets after it.
fn first_packet(octets: &[u8], at: usize) -> Result<(Packet<'_>, &[u8]), Why>
    ensures offset { IfOk result (λ found. found.0.at ≡ at) }
    ensures first { Finds (λ found. first_seen found.0 found.1.now) result (first_of octets.now) }
{
    let header = read_header(octets)?;
    if header.rest.len() < header.length {
        return Err(Why::CutBody);
    }
    let (body, rest) = header.rest.split_at(header.length);
    Ok((
        Packet {
            kind: header.kind,
            at,
            body,
        },
        rest,
    ))
}

/// Reads a text as a list of packets, each with the offset of its first octet, in either format and with every form of
/// length except the partial and the indeterminate one (RFC 9580, section 4.2). An empty text is the empty list. No
/// octet is copied: only the list of packets takes memory.
pub fn read_packets<'a>(alloc: Global, bytes: &'a [u8]) -> Result<Vec<Packet<'a>>, ReadFault>
    // The result is what the text spells, or its first fault.
    ensures spelled { IfOk result (λ packets. Spells bytes.now (spelled_all packets.items)) }
    ensures fault { IfErr result (λ answer. IfPacket answer (λ fault. IsFirstFault bytes.now fault)) }
    // The plain reader returns it too.
    ensures reader { ReturnsAsPlain (λ found. spelled_all found.items) result (packets_of bytes.now) }
    // A packet that was read can be written.
    ensures bounds { IfOk result (λ packets. All (λ packet.
        (packet.kind ≤ 63) × (length packet.body.now < 2 ^ 32)) packets.items) }
    ensures short { IfOk result (λ packets. AreShort (spelled_all packets.items)) }
    // Each packet has two octets or more.
    ensures few { IfOk result (λ packets. 2 * length packets.items ≤ length bytes.now) }

    // Every list that the text spells, and every first fault, is returned, unless memory runs out.
    ensures each_list { (packets : List Spelled) → Spells bytes.now packets →
        AnswersList (λ found. spelled_all found.items) result packets }
    ensures each_fault { (fault : PacketFault) → IsFirstFault bytes.now fault →
        AnswersFault result fault }
{
    let mut packets = Vec::new(alloc);
    let mut at = 0;
    'packets: while at < bytes.len() {
        let (_, octets) = bytes.split_at(at);
        let (packet, rest) = match first_packet(octets, at) {
            Ok(found) => found,
            Err(why) => return Err(ReadFault::Packet(PacketFault { at, why })),
        };
        packets.push(packet)?;
        at = bytes.len() - rest.len();
    }
    Ok(packets)
}
