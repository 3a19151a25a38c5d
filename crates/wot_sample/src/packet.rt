//! The packets of a test certificate, and their octets in the new packet format. `signature` writes the bodies of
//! signatures. It doesn't use the encoder of the product, so that a test of that one means something.
use crate::Says;
use crate::signature::signature;
use std::alloc::Global;

/// One packet of a certificate.
#[derive(Clone, Copy)]
pub enum Packet {
    /// A version 4 public key, created at 1000, with public key algorithm 27 and this one octet of key material.
    Key(u8),
    /// A user ID.
    UserId(&'static [u8]),
    /// A signature of this type over SHA2-256, and what its hashed subpackets say, in order.
    Signature(u8, &'static [Says]),
    /// A signature over the hash algorithm of this number, then its type and its hashed subpackets.
    SignatureByHash(u8, u8, &'static [Says]),
    /// Any other packet: its type and its body.
    Other(u8, &'static [u8]),
}

/// The octets of these packets, in the OpenPGP format. `None` if out of memory, or if a body has 8,384 octets or more.
pub fn text(alloc: Global, packets: &[Packet]) -> Option<Vec<u8>> {
    let mut out = Vec::new(alloc);
    for packet in packets {
        put_packet(alloc, packet, &mut out)?;
    }
    Some(out)
}

fn put_packet(alloc: Global, packet: &Packet, out: &mut Vec<u8>) -> Option<()> {
    match packet {
        Packet::Key(material) => put(6, &[4, 0, 0, 3, 232, 27, *material], out),
        Packet::UserId(body) => put(13, body, out),
        Packet::Signature(kind, says) => put(2, &signature(alloc, *kind, 8, says)?, out),
        Packet::SignatureByHash(hash, kind, says) => put(
            2,
            &signature(alloc, *kind, *hash, says)?,
            out,
        ),
        Packet::Other(kind, body) => put(*kind, body, out),
    }
}

fn put(kind: u8, body: &[u8], out: &mut Vec<u8>) -> Option<()> {
    if kind >= 64 {
        return None;
    }
    out.push(192 + kind).ok()?;
    put_length(body.len(), out)?;
    out.extend_from_slice(body).ok()
}

/// Appends a length of a new-format packet, in one octet or in two (RFC 9580, section 4.2.1).
fn put_length(length: usize, out: &mut Vec<u8>) -> Option<()> {
    if length < 192 {
        return out.push(length as u8).ok();
    }
    if length >= 8384 {
        return None;
    }
    let [high, low] = u16::try_from(length - 192).ok()?.to_be_bytes();
    out.extend_from_slice(&[high.wrapping_add(192), low]).ok()
}
