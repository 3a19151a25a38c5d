//! The bodies of test signatures, from a list of what their subpackets say. They hold no cryptography: tests give the
//! verdicts.
use std::alloc::Global;
use wot_types::Fpr;

/// What a hashed subpacket of a signature says (RFC 9580, section 5.2.3.7). Times are in seconds.
#[derive(Clone, Copy)]
pub enum Says {
    /// When the signature was created.
    Made(u32),
    /// How long it is valid.
    Lasts(u32),
    /// How long its key is valid, from the key's creation.
    KeyLasts(u32),
    /// Trust of this depth and amount.
    Trust(u8, u8),
    /// The scope of trust: a regular expression.
    Scope(&'static [u8]),
    /// Its user ID is the primary one.
    Primary,
    /// The reason of a revocation, without a text.
    Reason(u8),
    /// Who made it.
    By(Fpr),
    /// Any other subpacket: its type octet, of which bit 7 marks it critical, and its body.
    Subpacket(u8, &'static [u8]),
}

/// The body of a version 4 signature: its type, the number of its hash algorithm, and what it says. Its public key
/// algorithm is 27. The unhashed area, the left 16 bits of the hash and the cryptographic material are empty or zero.
pub(crate) fn signature(
    alloc: Global,
    kind: u8,
    hash: u8,
    says: &'static [Says],
) -> Option<Vec<u8>> {
    let hashed = area(alloc, says)?;
    let length = u16::try_from(hashed.len()).ok()?;
    let mut body = Vec::new(alloc);
    body.extend_from_slice(&[4, kind, 27, hash]).ok()?;
    body.extend_from_slice(&length.to_be_bytes()).ok()?;
    body.extend_from_slice(&hashed).ok()?;
    body.extend_from_slice(&[0, 0, 0, 0]).ok()?;
    Some(body)
}

fn area(alloc: Global, says: &'static [Says]) -> Option<Vec<u8>> {
    let mut area = Vec::new(alloc);
    for said in says {
        put_subpacket(&mut area, said)?;
    }
    Some(area)
}

fn put_subpacket(area: &mut Vec<u8>, said: &Says) -> Option<()> {
    match said {
        Says::Made(moment) => put_number(area, 2, *moment),
        Says::Lasts(seconds) => put_number(area, 3, *seconds),
        Says::KeyLasts(seconds) => put_number(area, 9, *seconds),
        Says::Trust(depth, amount) => put(area, 5, &[*depth, *amount], &[]),
        Says::Scope(pattern) => put(area, 6, pattern, &[0]),
        Says::Primary => put(area, 25, &[1], &[]),
        Says::Reason(code) => put(area, 29, &[*code], &[]),
        Says::By(fpr) => put_issuer(area, fpr),
        Says::Subpacket(kind, body) => put(area, *kind, body, &[]),
    }
}

fn put_issuer(area: &mut Vec<u8>, fpr: &Fpr) -> Option<()> {
    put(area, 33, &[fpr.version()], fpr.octets())
}

fn put_number(area: &mut Vec<u8>, kind: u8, number: u32) -> Option<()> {
    put(area, kind, &number.to_be_bytes(), &[])
}

/// Appends a subpacket of this type with a length of one octet. Its body is both parts together.
fn put(area: &mut Vec<u8>, kind: u8, body: &[u8], rest: &[u8]) -> Option<()> {
    if body.len() > 100 || rest.len() > 50 {
        return None;
    }
    let length = body.len() + rest.len() + 1;
    area.extend_from_slice(&[length as u8, kind]).ok()?;
    area.extend_from_slice(body).ok()?;
    area.extend_from_slice(rest).ok()
}
