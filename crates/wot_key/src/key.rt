//! What the body of a public key packet says: version, creation time and algorithm.
//!
//! It uses `specs/Key.antt`, which says which bodies can be parsed. Imports skip keys that it can't parse, and
//! count them.
ghost use Rattle.std.specs.Prelude.{◌≡◌};
ghost use Rattle.wot_key.specs.Key.{is_readable, is_v4, is_v6, key_of};

/// What the body of a public key packet says about the key (RFC 9580, section 5.5.2).
#[derive(Clone, Copy, Debug, PartialEq, Eq)]
pub struct Key {
    /// The version, which is 4 or 6.
    pub version: u8,
    /// When the key was created, in seconds since 1970.
    pub created: u32,
    /// The number of the public key algorithm. Every number is accepted.
    pub algorithm: u8,
}

/// Whether a body can be parsed.
pub(crate) fn test_readable(body: &[u8]) -> bool
    ensures test { result ≡ is_readable body.now }
{
    test_v4(body) || test_v6(body)
}

fn test_v4(body: &[u8]) -> bool
    ensures { result ≡ is_v4 body.now }
{
    6 <= body.len() && body.len() <= 65535 && body[0] == 4
}

fn test_v6(body: &[u8]) -> bool
    ensures { result ≡ is_v6 body.now }
{
    if body.len() < 10 || body.len() > 0xffff_ffff || body[0] != 6 {
        return false;
    }
    let material = u32::from_be_bytes([body[6], body[7], body[8], body[9]]);
    material as usize == body.len() - 10
}

/// Reads the body of a public key packet, without its header. `None` unless it is a version 4 body of 6 to 65,535
/// octets, or a version 6 body of fewer than 2^32 octets whose material is as long as it says. RFC 9580 also knows keys
/// of versions 2 and 3, and sets no such bounds. The key material isn't looked at.
pub fn read_key(body: &[u8]) -> Option<Key>
    ensures read { result ≡ key_of body.now }
{
    if !test_readable(body) {
        return None;
    }
    Some(Key {
        version: body[0],
        created: u32::from_be_bytes([body[1], body[2], body[3], body[4]]),
        algorithm: body[5],
    })
}
