//! Fingerprints and key IDs (RFC 9580, sections 5.5.4.2 and 5.5.4.3).
//!
//! It uses the contracts of `sha1` and `sha2` and `specs/Key.antt`. Certificates are kept by the fingerprint
//! that is made here.
ghost use Rattle.std.specs.Prelude.{◌≡◌, ◌≤◌, ◌<◌, ◌^◌, drop, take, length};
ghost use Rattle.wot_key.specs.Key.{fingerprint_of, key_id_of, v4_digest, v6_digest};

use crate::key::test_readable;
use sha1::Sha1;
use sha2::{Digest, Sha256};
use wot_types::Fpr;

/// The fingerprint of the key with this body (RFC 9580, sections 5.5.4.2 and 5.5.4.3). Version 4: SHA-1 over the octet
/// 0x99, the two octets of the body's length and the body. Version 6: SHA-256 over the octet 0x9B, the four octets of
/// the length and the body. `None` if the body can't be parsed.
#[tactic(auto, unfolding(crate::specs::Key::fpr_of))]
pub fn fingerprint(body: &[u8]) -> Option<Fpr>
    ensures digest { result ≡ fingerprint_of body.now }
{
    if !test_readable(body) {
        return None;
    }
    if body[0] == 6 {
        Some(Fpr::V6(digest_v6(body)))
    } else {
        Some(Fpr::V4(digest_v4(body)))
    }
}

#[tactic(auto, unfolding(crate::specs::Key::v4_digest))]
fn digest_v4(body: &[u8]) -> [u8; 20]
    requires { length body.now ≤ 65535 }
    ensures { result ≡ v4_digest body.now }
{
    let mut hasher = Sha1::new();
    hasher.update(&[0x99]);
    hasher.update(&(body.len() as u16).to_be_bytes());
    hasher.update(body);
    hasher.finalize()
}

#[tactic(auto, unfolding(crate::specs::Key::v6_digest))]
fn digest_v6(body: &[u8]) -> [u8; 32]
    requires { length body.now < 2 ^ 32 }
    ensures { result ≡ v6_digest body.now }
{
    let mut hasher = Sha256::new();
    hasher.update(&[0x9b]);
    hasher.update(&(body.len() as u32).to_be_bytes());
    hasher.update(body);
    hasher.finalize()
}

/// The key ID of a fingerprint (RFC 9580, sections 5.5.4.2 and 5.5.4.3): its last eight octets in version 4, its
/// first eight in version 6.
pub fn key_id(fpr: &Fpr) -> [u8; 8]
    ensures id { result ≡ key_id_of fpr.now }
{
    match fpr {
        Fpr::V4(octets) => last_eight(octets),
        Fpr::V6(octets) => first_eight(octets),
    }
}

fn last_eight(octets: &[u8; 20]) -> [u8; 8]
    ensures last { result ≡ drop 12 octets.now }
{
    [
        octets[12], octets[13], octets[14], octets[15], octets[16], octets[17], octets[18],
        octets[19],
    ]
}

fn first_eight(octets: &[u8; 32]) -> [u8; 8]
    ensures first { result ≡ take 8 octets.now }
{
    [
        octets[0], octets[1], octets[2], octets[3], octets[4], octets[5], octets[6], octets[7],
    ]
}
