//! Where an issuer stands in the body of a signature: the octet of its version, and its fingerprint.
//!
//! It uses `specs/KeptFacts.antt`. `kept_facts` keeps this place instead of the fingerprint, and reads it there.
ghost use Rattle.std.specs.Prelude.{◌≡◌, ◌≤◌, ◌^◌, slice_index, IfSome};
ghost use Rattle.std.specs.Option.{option_map};
ghost use Rattle.wot_kept_signature.specs.KeptFacts.{octets_from, issuer_at as issuer_at_spec};
ghost use Rattle.wot_kept_signature.specs.KeptFacts.{stands_at as stands_at_spec};

use wot_types::{Fpr, compare_fprs};

/// The octet at this place, or 0 after the end.
#[inline(always)]
pub(crate) fn octet_at(body: &[u8], at: usize) -> u8
    ensures { result ≡ slice_index body.now at }
{
    body.get(at).copied().unwrap_or(0)
}

/// The issuer at this place. `None` if neither version stands there, or if the fingerprint is cut off.
#[inline(always)]
pub(crate) fn issuer_at(body: &[u8], at: u32) -> Option<Fpr>
    ensures { result ≡ issuer_at_spec body.now at }
{
    let place = at as usize;
    match octet_at(body, place) {
        4 => fingerprint_v4(body, place + 1),
        6 => fingerprint_v6(body, place + 1),
        _ => None,
    }
}

/// The first place at which this issuer stands. `None` if it isn't in the body, or only after the places that a `u32`
/// counts.
pub(crate) fn place_of(issuer: &Fpr, body: &[u8]) -> Option<u32>
    ensures { IfSome result (λ at. issuer_at_spec body.now at ≡ Some issuer.now) }
{
    let end = u32::try_from(body.len()).unwrap_or(u32::MAX);
    for at in 0..end {
        if stands_at(issuer, body, at) {
            return Some(at);
        }
    }
    None
}

fn stands_at(issuer: &Fpr, body: &[u8], at: u32) -> bool
    ensures { result ≡ stands_at_spec issuer.now body.now at }
{
    match issuer_at(body, at) {
        Some(found) => compare_fprs(&found, issuer).is_eq(),
        None => false,
    }
}

#[inline(always)]
fn fingerprint_v4(body: &[u8], from: usize) -> Option<Fpr>
    requires { from ≤ 2 ^ 32 }
    ensures { result ≡ option_map Fpr.V4 (octets_from 20 from body.now) }
{
    if body.len() < from + 20 {
        return None;
    }
    let mut octets = [0u8; 20];
    octets.copy_from_slice(&body[from..from + 20]);
    Some(Fpr::V4(octets))
}

#[inline(always)]
fn fingerprint_v6(body: &[u8], from: usize) -> Option<Fpr>
    requires { from ≤ 2 ^ 32 }
    ensures { result ≡ option_map Fpr.V6 (octets_from 32 from body.now) }
{
    if body.len() < from + 32 {
        return None;
    }
    let mut octets = [0u8; 32];
    octets.copy_from_slice(&body[from..from + 32]);
    Some(Fpr::V6(octets))
}
