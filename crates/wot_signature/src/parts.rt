//! The parts of a signature body: type, hash algorithm and both areas, in the forms of versions 4 and 6 (RFC 9580,
//! section 5.2.3).
//!
//! It uses `specs/Body.antt`. `read_body` parses the hashed area that it cuts out.
ghost use Rattle.std.specs.Prelude.{IfSome};
ghost use Rattle.wot_subpacket.specs.Slice.{IsSliceOf};
ghost use Rattle.wot_signature.specs.Body.{
  areas,
  ends_v4,
  ends_v6,
  long_field_at,
  short_field_at,
  parts_of as parts_of_spec,
};
ghost use Rattle.wot_signature.specs.Lent.{Lends, lent_parts};

/// The parts of a signature body that say something.
#[derive(Clone, Copy)]
pub(crate) struct BodyParts<'a> {
    pub(crate) kind: u8,
    pub(crate) hash: u8,
    pub(crate) hashed: &'a [u8],
    pub(crate) unhashed: &'a [u8],
}

/// Cuts a body into its parts. `None` if a part is missing or the version is neither 4 nor 6.
pub(crate) fn parts_of(body: &[u8]) -> Option<BodyParts<'_>>
    ensures parts { Lends (parts_of_spec body.now) result lent_parts }
    ensures slice { IfSome result (λ parts. IsSliceOf parts.hashed.now body.now) }
{
    if body.len() < 4 {
        return None;
    }
    match body[0] {
        4 => areas_v4(body[1], body[3], &body[4..]),
        6 => areas_v6(body[1], body[3], &body[4..]),
        _ => None,
    }
}

/// The areas of version 4. Two octets of the hash and the material follow them.
fn areas_v4(kind: u8, hash: u8, octets: &[u8]) -> Option<BodyParts<'_>>
    ensures parts { Lends (areas short_field_at ends_v4 kind hash octets.now) result lent_parts }
    ensures slice { IfSome result (λ parts. IsSliceOf parts.hashed.now octets.now) }
{
    let (hashed, rest) = short_field(octets)?;
    let (unhashed, rest) = short_field(rest)?;
    if rest.len() < 2 {
        return None;
    }
    Some(BodyParts {
        kind,
        hash,
        hashed,
        unhashed,
    })
}

/// The areas of version 6. Two octets of the hash, an octet with the salt's length, the salt and the material follow
/// them.
fn areas_v6(kind: u8, hash: u8, octets: &[u8]) -> Option<BodyParts<'_>>
    ensures parts { Lends (areas long_field_at ends_v6 kind hash octets.now) result lent_parts }
    ensures slice { IfSome result (λ parts. IsSliceOf parts.hashed.now octets.now) }
{
    let (hashed, rest) = long_field(octets)?;
    let (unhashed, rest) = long_field(rest)?;
    if rest.len() < 3 || rest.len() - 3 < usize::from(rest[2]) {
        return None;
    }
    Some(BodyParts {
        kind,
        hash,
        hashed,
        unhashed,
    })
}

/// A field after its length in two octets, and the octets after it.
fn short_field(octets: &[u8]) -> Option<(&[u8], &[u8])>
    ensures found { Lends (short_field_at octets.now) result (λ found. (found.0.now, found.1.now)) }
    ensures slice { IfSome result (λ found. IsSliceOf found.0.now octets.now) }
{
    if octets.len() < 2 {
        return None;
    }
    let size = usize::from(u16::from_be_bytes([octets[0], octets[1]]));
    let rest = &octets[2..];
    if rest.len() < size {
        return None;
    }
    Some((&rest[..size], &rest[size..]))
}

/// A field after its length in four octets, and the octets after it.
fn long_field(octets: &[u8]) -> Option<(&[u8], &[u8])>
    ensures found { Lends (long_field_at octets.now) result (λ found. (found.0.now, found.1.now)) }
    ensures slice { IfSome result (λ found. IsSliceOf found.0.now octets.now) }
{
    if octets.len() < 4 {
        return None;
    }
    let size = u32::from_be_bytes([octets[0], octets[1], octets[2], octets[3]]) as usize;
    let rest = &octets[4..];
    if rest.len() < size {
        return None;
    }
    Some((&rest[..size], &rest[size..]))
}
