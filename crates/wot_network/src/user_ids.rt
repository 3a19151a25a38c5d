//! Finds user IDs in a certificate: the place of one, whether one is there unrevoked, and whether an edge's scope
//! covers it. `roads` uses it; scopes are matched by wot_scope.
ghost use Rattle.std.specs.Prelude.{◌≡◌, ◌<◌, ◌^◌, length, IfOk};
ghost use Rattle.wot_network.specs.Places.{TellsInOrder, TellsUnrevoked};
ghost use Rattle.wot_network.specs.Places.{is_first as is_first_spec, behind_first as behind_first_spec};
ghost use Rattle.wot_network.specs.Records.{body_in as body_in_spec, body_at as body_at_spec, is_in_scope};
ghost use Rattle.wot_network.specs.Records.{is_user_id as is_user_id_spec, user_id_place as place_of_spec};

use std::alloc::Global;
use wot_cert::Part;
use wot_edge::EdgeFacts;
use wot_scope::in_scope;
use wot_standing::{Standing, is_key_in_order};
use wot_types::Memory;

fn body_in(sig: u32, uid: &Part) -> &[u8]
    ensures body { result.now ≡ body_in_spec sig uid.now }
{
    match uid.sigs().get(sig as usize) {
        Some(sig) => sig.body(),
        None => &[],
    }
}

/// The body of the signature at a place on the user ID at a place.
fn body_at(user_ids: &[Part], uid: u32, sig: u32) -> &[u8]
    ensures body { result.now ≡ body_at_spec user_ids.now uid sig }
{
    match user_ids.get(uid as usize) {
        Some(uid) => body_in(sig, uid),
        None => &[],
    }
}

/// Whether the scope of an edge covers a user ID. The target's user IDs have the signature with the scope.
pub(crate) fn holds_for(
    alloc: Global,
    user_ids: &[Part],
    edge: &EdgeFacts,
    u: &[u8],
) -> Result<bool, Memory>
    ensures holds { IfOk result (λ holds. holds ≡ is_in_scope user_ids.now u.now edge.now) }
{
    if !edge.scoped {
        return Ok(true);
    }
    in_scope(alloc, body_at(user_ids, edge.uid, edge.sig), u)
}

fn is_user_id(u: &[u8], uid: &Part) -> bool
    ensures is { result ≡ is_user_id_spec u.now uid.now }
{
    u.cmp(uid.body()).is_eq()
}

/// The place of a user ID among these.
pub(crate) fn place_of(user_ids: &[Part], u: &[u8]) -> Option<u32>
    requires few { length user_ids.now < 2 ^ 32 }
    ensures place { result ≡ place_of_spec u.now user_ids.now }
{
    let mut place = 0u32;
    let mut rest = user_ids;
    'rest: while let Some((uid, others)) = rest.split_first() {
        if is_user_id(u, uid) {
            return Some(place);
        }
        place += 1;
        rest = others;
    }
    None
}

/// Whether this place is the first of these.
fn is_first(place: u32, places: &[u32]) -> bool
    ensures first { result ≡ is_first_spec place places.now }
{
    match places.split_first() {
        Some((first, _)) => *first == place,
        None => false,
    }
}

/// The places after this one, if it is the first; else all of them.
fn behind_first(place: u32, places: &[u32]) -> &[u32]
    ensures behind { result.now ≡ behind_first_spec place places.now }
{
    match places.split_first() {
        Some((first, rest)) => { if *first == place { rest } else { places } }
        None => places,
    }
}

/// Whether the user ID is among these, at a place that isn't revoked. The revoked places are sorted.
fn has_unrevoked(user_ids: &[Part], revoked: &[u32], u: &[u8]) -> bool
    requires few { length user_ids.now < 2 ^ 32 }
    ensures has { TellsUnrevoked u.now user_ids.now revoked.now result }
{
    let mut place = 0u32;
    let mut left = revoked;
    let mut rest = user_ids;
    'rest: while let Some((uid, others)) = rest.split_first() {
        if !is_first(place, left) && is_user_id(u, uid) {
            return true;
        }
        left = behind_first(place, left);
        place += 1;
        rest = others;
    }
    false
}

/// Whether a certificate is in order for a user ID, given its user IDs, its standing at `t` and the places that its own
/// key revoked.
pub(crate) fn is_in_order(
    user_ids: &[Part],
    standing: &Standing,
    revoked: &[u32],
    t: u32,
    u: &[u8],
) -> bool
    requires few { length user_ids.now < 2 ^ 32 }
    ensures in_order { TellsInOrder t u.now user_ids.now standing.now revoked.now result }
{
    is_key_in_order(standing, t) && has_unrevoked(user_ids, revoked, u)
}
