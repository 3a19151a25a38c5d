//! The key ID that a signature names as its issuer.
//!
//! It uses `read_body` and `specs/Signature.antt`. It is a hint for verifiers: `pending` replies name it, and
//! no answer depends on it.
ghost use Rattle.std.specs.Prelude.{◌≡◌, length, if◌then◌else◌, Some, None};
ghost use Rattle.wot_subpacket.specs.Seen.{seen};
ghost use Rattle.wot_signature.specs.Known.{is_known_of, last_body_of};
ghost use Rattle.wot_signature.specs.Signature.{hint_of};

use crate::known::{ISSUER_KEY_ID, is_known};
use crate::read_body::read_body_of;
use wot_subpacket::{Area, Sub};

/// The last issuer key ID of the hashed area, or else of the unhashed area if that is a list of subpackets. It is only
/// a hint at the issuer. `None` if there is none or the body can't be parsed.
#[tactic(auto, unfolding(crate::specs::Signature::hint_of))]
pub fn hint(body: &[u8]) -> Option<[u8; 8]>
    ensures hint { result ≡ hint_of body.now }
{
    let reading = read_body_of(body)?;
    if let Some(key_id) = last_key_id(&reading.hashed) {
        return Some(key_id);
    }
    match Area::new(reading.unhashed) {
        Ok(unhashed) => last_key_id(&unhashed),
        Err(_) => None,
    }
}

fn last_key_id(area: &Area<'_>) -> Option<[u8; 8]>
    ensures { result ≡ last_body_of 16 area.now }
{
    let mut last = None;
    for sub in area.iter() {
        last = key_id_of(&sub).or(last);
    }
    last
}

fn key_id_of(sub: &Sub<'_>) -> Option<[u8; 8]>
    ensures { result ≡ (if is_known_of 16 (seen sub.now) then Some sub.now.body.now else None) }
{
    if sub.kind == ISSUER_KEY_ID && is_known(sub) {
        Some(key_id_in(sub.body))
    } else {
        None
    }
}

fn key_id_in(body: &[u8]) -> [u8; 8]
    requires { length body.now ≡ 8 }
    ensures { result ≡ body.now }
{
    let mut octets = [0u8; 8];
    octets.copy_from_slice(body);
    octets
}
