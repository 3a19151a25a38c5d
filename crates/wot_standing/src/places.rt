//! The place of a certification for each issuer and user ID, all in one map.
//!
//! It uses `specs/Certifiers.antt`. `certifiers` fills the map.
ghost use Rattle.std.specs.Prelude.{◌≡◌, ◌+◌, length, is_some, OnOk, IfOk, if◌then◌else◌};
ghost use Rattle.std.specs.List.Sorted.{IsStrictlySortedBy};
ghost use Rattle.std.specs.Map.{keys_of};
ghost use Rattle.wot_standing.specs.Certifiers.{certified_cmp, place_for, KeepsNumber, StaysElsewhere};

use std::alloc::Global;
use std::collections::BTreeMap;
use wot_types::{Fpr, Memory};

/// The issuer of a certification, and the place of the user ID that it is on.
#[derive(Clone, Copy, Debug, PartialEq, Eq, PartialOrd, Ord)]
pub struct Certified {
    /// The key that issued it.
    pub issuer: Fpr,
    /// The place of the user ID in its certificate.
    pub uid: u32,
}

pub(crate) type Places = BTreeMap<Certified, u32, Global>;

pub(crate) fn place(places: &Places, issuer: Fpr, uid: u32) -> Option<u32>
    ensures { result ≡ place_for places.now.entries uid issuer }
{
    let key = Certified { issuer, uid };
    places.get(&key).copied()
}

/// Keeps a place for an issuer on the user ID `uid`, instead of the one that is returned.
pub(crate) fn keep_place(
    places: &mut Places,
    issuer: Fpr,
    uid: u32,
    place: u32,
) -> Result<Option<u32>, Memory>
    ensures old { IfOk result (λ old. old ≡ place_for places.old.entries uid issuer) }
    ensures keeps { OnOk result
        (KeepsNumber (place_for places.old.entries uid) (place_for places.new.entries uid) issuer place) }
    ensures elsewhere { OnOk result (StaysElsewhere uid places.old.entries places.new.entries) }
    ensures count { IfOk result
        (λ old. length places.new.entries ≡ length places.old.entries + (if is_some old then 0 else 1)) }
{
    let old = places.insert(Certified { issuer, uid }, place)?;
    Ok(old)
}

/// How many places there are. They are in the order of issuer and user ID.
pub(crate) fn count(places: &Places) -> usize
    ensures count { result ≡ length places.now.entries }
    ensures sorted { IsStrictlySortedBy certified_cmp (keys_of places.now.entries) }
{
    places.len()
}
