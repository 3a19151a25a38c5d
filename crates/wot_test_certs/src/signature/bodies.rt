//! Certifications with chosen subpacket areas, for the tests of what signatures say.
use std::alloc::Global;
use std::process::Abort;
use wot_signature::{SigFacts, read_signature};

/// The hashed subpacket of a creation time, 2000.
pub(crate) const MADE_2000: [u8; 6] = [0x05, 0x02, 0x00, 0x00, 0x07, 0xd0];

/// What a certification with only that subpacket says.
pub(crate) const PLAIN: SigFacts = SigFacts {
    kind: 0x10,
    hash: 8,
    made: 2000,
    lasts: 0,
    key_lasts: 0,
    depth: 0,
    amount: 120,
    scoped: false,
    revocable: true,
    primary: false,
    reason: None,
    issuer: None,
    sound: true,
};

/// A certification with these areas and no cryptographic material.
pub(crate) fn certification(
    rt: &impl Abort,
    alloc: Global,
    hashed: &[u8],
    unhashed: &[u8],
) -> Vec<u8> {
    let mut body = b"\x04\x10\x1b\x08".to_vec(alloc).expect(rt, "memory");
    extend_with_field(rt, &mut body, hashed);
    extend_with_field(rt, &mut body, unhashed);
    body.extend_from_slice(&[0x00, 0x00]).expect(rt, "memory");
    body
}

/// Appends the number of octets, by two octets, and the octets.
fn extend_with_field(rt: &impl Abort, body: &mut Vec<u8>, octets: &[u8]) {
    let size = u16::try_from(octets.len()).unwrap_or(0);
    body.extend_from_slice(&size.to_be_bytes())
        .expect(rt, "memory");
    body.extend_from_slice(octets).expect(rt, "memory");
}

/// Whether a certification with these areas says this; `None` if it can't be parsed.
pub(crate) fn says(
    rt: &impl Abort,
    alloc: Global,
    hashed: &[u8],
    unhashed: &[u8],
    expected: Option<SigFacts>,
) -> bool {
    let body = certification(rt, alloc, hashed, unhashed);
    read_signature(&body) == expected
}
