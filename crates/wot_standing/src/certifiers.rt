//! The newest valid certification of every issuer on each user ID, found in one walk over its signatures.
//!
//! It uses `latest`, `newest`, `kinds` and `places`, and `specs/Certifiers.antt`. `wot_live` makes one edge of
//! each.
ghost use Rattle.std.specs.Prelude.{◌≡◌, ◌<◌, ◌≤◌, ◌+◌, ◌^◌, [], length, map, Some, OnOk, IfOk};
ghost use Rattle.std.specs.List.{slice_get};
ghost use Rattle.std.specs.List.Sorted.{IsStrictlySortedBy};
ghost use Rattle.std.specs.Map.{keys_of};
ghost use Rattle.std.specs.Option.{option_copied, option_flatten};
ghost use Rattle.wot_standing.specs.Certifiers.{certified_cmp, certifier_of, number_for, place_for, revoker_of};
ghost use Rattle.wot_standing.specs.Certifiers.{ArePlaced, HasNone, KeepsLatest, KeepsNewest, KeepsNumber};
ghost use Rattle.wot_standing.specs.Certifiers.{StaysElsewhere, TakesLatest, TakesValid};

use crate::kinds::{CERTIFICATION_REVOCATION, has_kind, is_certification, is_live, made};
use crate::latest::later;
use crate::newest::{is_newest, stays};
use crate::places::{Certified, Places, count, keep_place, place};
use std::alloc::Global;
use std::collections::BTreeMap;
use std::collections::btree_map::Iter;
use std::marker::Model;
use wot_cert::{Part, Sig, issuer_from};
use wot_types::{Fpr, Memory};
use wot_verdict::Verdicts;

type Numbers = BTreeMap<Fpr, u32, Global>;

/// What decides whether a certification on the user ID at this place is valid: the verdicts, the time, and each
/// issuer's latest revocation there.
#[derive(Clone, Copy)]
struct Validity<'a> {
    uid: u32,
    verdicts: &'a Verdicts,
    t: u32,
    latest: &'a Numbers,
}

/// The newest certification of each issuer on each user ID that was added, by its place there.
#[derive(Drop)]
pub struct Certifiers {
    places: Places,
}

impl Model for Certifiers {
    ghost use Rattle.std.specs.Prelude.{List, ℕ};
    ghost use Rattle.wot_standing.specs.declared.places.Certified.{Certified};

    ghost Value = { List (Certified × ℕ) };

    ghost view = { λ certifiers. certifiers.places.entries };
}

impl Certifiers {
    /// None yet.
    pub fn new(alloc: Global) -> Certifiers
        ensures empty { result ≡ [] }
    {
        Certifiers {
            places: BTreeMap::new(alloc),
        }
    }

    /// Adds, for each issuer, the newest certification on the user ID that counts as the issuer's, is live at `t` and
    /// unrevoked. `place` is the place of the user ID, which has none yet. The verdict on its first signature is looked
    /// for at `from` first, and the result is where the one after its last signature's may be. Any place adds the same;
    /// begin with 0.
    pub fn add(
        &mut self,
        alloc: Global,
        place: u32,
        uid: &Part,
        verdicts: &Verdicts,
        t: u32,
        from: usize,
    ) -> Result<usize, Memory>
        requires few { length uid.now.sigs < 2 ^ 32 }
        requires none { HasNone place self.old }
        ensures newest { OnOk result (KeepsNewest verdicts.now.entries t uid.now (place_for self.new place)) }
        ensures elsewhere { OnOk result (StaysElsewhere place self.old self.new) }
        ensures count { OnOk result (length self.new ≤ length self.old + length uid.now.sigs) }
    {
        let (latest, start) = latest_revocations(alloc, uid.sigs(), verdicts, t, from)?;
        let (issuers, next) = certifiers_in(alloc, uid.sigs(), verdicts, t, start)?;
        let validity = Validity {
            uid: place,
            verdicts,
            t,
            latest: &latest,
        };
        add_places(&mut self.places, uid.sigs(), &issuers, &validity)?;
        Ok(next)
    }

    /// The place of an issuer's certification among the signatures on the user ID at this place.
    pub fn place(&self, uid: u32, issuer: &Fpr) -> Option<u32>
        ensures place { result ≡ place_for self.now uid issuer.now }
    {
        place(&self.places, *issuer, uid)
    }

    /// How many certifications there are. They are in the order of issuer and user ID.
    pub fn len(&self) -> usize
        ensures count { result ≡ length self.now }
        ensures sorted { IsStrictlySortedBy certified_cmp (keys_of self.now) }
    {
        count(&self.places)
    }

    /// Issuers and user IDs in order, each with the place of the certification there.
    pub fn iter(&self) -> Iter<'_, Certified, u32>
        ensures places { result ≡ self.now }
    {
        self.places.iter()
    }
}

fn number(numbers: &Numbers, issuer: &Fpr) -> Option<u32>
    ensures { result ≡ number_for numbers.now.entries issuer.now }
{
    // Most user IDs have no revocation.
    if numbers.is_empty() {
        return None;
    }
    numbers.get(issuer).copied()
}

fn keep(numbers: &mut Numbers, issuer: Fpr, number: u32) -> Result<(), Memory>
    ensures { OnOk result
        (KeepsNumber (number_for numbers.old.entries) (number_for numbers.new.entries) issuer number) }
{
    numbers.insert(issuer, number)?;
    Ok(())
}

/// By whom a signature is a live revocation, and where to look first for the verdict on the next signature. What costs
/// a look at the verdicts is asked last.
fn revoker(sig: &Sig, verdicts: &Verdicts, t: u32, from: usize) -> (Option<Fpr>, usize)
    ensures { result.0 ≡ revoker_of verdicts.now.entries t sig.now }
{
    if has_kind(sig, CERTIFICATION_REVOCATION) && is_live(sig, t) {
        issuer_from(sig, verdicts, from)
    } else {
        (None, from.saturating_add(1))
    }
}

/// By whom a signature is a live certification, and where to look first for the verdict on the next signature.
fn certifier(sig: &Sig, verdicts: &Verdicts, t: u32, from: usize) -> (Option<Fpr>, usize)
    ensures { result.0 ≡ certifier_of verdicts.now.entries t sig.now }
{
    if is_certification(sig) && is_live(sig, t) {
        issuer_from(sig, verdicts, from)
    } else {
        (None, from.saturating_add(1))
    }
}

/// By whom each of these signatures is a live certification, and where the verdict after theirs may be. Each verdict is
/// looked for first after the last one, since those on one certificate's signatures mostly stand one after the other.
/// Nothing else is done between the lookups, so that the processor fetches several at once.
fn certifiers_in(
    alloc: Global,
    sigs: &[Sig],
    verdicts: &Verdicts,
    t: u32,
    from: usize,
) -> Result<(Vec<Option<Fpr>>, usize), Memory>
    ensures { IfOk result (λ found. found.0.items ≡ map (certifier_of verdicts.now.entries t) sigs.now) }
{
    let mut issuers = Vec::with_capacity(alloc, sigs.len())?;
    let mut place = from;
    let mut rest = sigs;
    'rest: while let Some((sig, others)) = rest.split_first() {
        let (issuer, next) = certifier(sig, verdicts, t, place);
        issuers.push(issuer)?;
        place = next;
        rest = others;
    }
    Ok((issuers, place))
}

/// When each issuer's latest live revocation among these signatures was created, and where the verdict on the first
/// signature may be. That is `from`, unless the verdict on a revocation was found elsewhere: then it is as many places
/// before that one as there are signatures before the revocation.
fn latest_revocations(
    alloc: Global,
    sigs: &[Sig],
    verdicts: &Verdicts,
    t: u32,
    from: usize,
) -> Result<(Numbers, usize), Memory>
    ensures { IfOk result (λ found. KeepsLatest verdicts.now.entries t sigs.now (number_for found.0.entries)) }
{
    let mut latest = BTreeMap::new(alloc);
    let mut start = from;
    let mut rest = sigs;
    'back: while let Some((sig, prefix)) = rest.split_last() {
        rest = prefix;
        let place = start.saturating_add(prefix.len());
        let next = note_revocation(&mut latest, sig, verdicts, t, place)?;
        start = next.saturating_sub(prefix.len()).saturating_sub(1);
    }
    Ok((latest, start))
}

/// Adds a signature to the latest revocations, and returns where to look first for the verdict on the next one.
fn note_revocation(
    latest: &mut Numbers,
    sig: &Sig,
    verdicts: &Verdicts,
    t: u32,
    from: usize,
) -> Result<usize, Memory>
    ensures { OnOk result
        (TakesLatest verdicts.now.entries t sig.now (number_for latest.old.entries) (number_for latest.new.entries)) }
{
    let (by, next) = revoker(sig, verdicts, t, from);
    let Some(issuer) = by else { return Ok(next) };
    let best = later(made(sig), number(latest, &issuer));
    keep(latest, issuer, best)?;
    Ok(next)
}

/// Adds the place of each issuer's newest valid certification on the user ID, given by whom each signature is one.
fn add_places(
    places: &mut Places,
    sigs: &[Sig],
    issuers: &[Option<Fpr>],
    validity: &Validity<'_>,
) -> Result<(), Memory>
    requires few { length sigs.now < 2 ^ 32 }
    requires none { HasNone validity.now.uid places.old.entries }
    requires issuers { issuers.now ≡ map (certifier_of validity.now.verdicts.now.entries validity.now.t) sigs.now }
    requires latest { KeepsLatest validity.now.verdicts.now.entries validity.now.t sigs.now
        (number_for validity.now.latest.now.entries) }
    ensures newest { OnOk result (ArePlaced validity.now sigs.now places.new.entries) }
    ensures elsewhere { OnOk result (StaysElsewhere validity.now.uid places.old.entries places.new.entries) }
    ensures count { OnOk result (length places.new.entries ≤ length places.old.entries + length sigs.now) }
{
    let mut rest = sigs;
    'back: while let Some((sig, prefix)) = rest.split_last() {
        rest = prefix;
        let by = issuer_at(issuers, prefix.len());
        note_certification(places, sigs, prefix.len() as u32, sig, by, validity)?;
    }
    Ok(())
}

fn issuer_at(issuers: &[Option<Fpr>], at: usize) -> Option<Fpr>
    ensures { result ≡ option_flatten (slice_get issuers.now at) }
{
    match issuers.get(at) {
        Some(issuer) => *issuer,
        None => None,
    }
}

/// Adds the signature at this place to the newest certifications, if it is one by somebody. Most issuers have no other
/// one, so the place is kept first, and what it replaced comes back if it is newer.
fn note_certification(
    places: &mut Places,
    sigs: &[Sig],
    at: u32,
    sig: &Sig,
    by: Option<Fpr>,
    validity: &Validity<'_>,
) -> Result<(), Memory>
    requires here { slice_get sigs.now at ≡ Some sig.now }
    requires by { by ≡ certifier_of validity.now.verdicts.now.entries validity.now.t sig.now }
    requires latest { KeepsLatest validity.now.verdicts.now.entries validity.now.t sigs.now
        (number_for validity.now.latest.now.entries) }
    ensures takes { OnOk result
        (TakesValid validity.now sigs.now sig.now places.old.entries places.new.entries) }
    ensures elsewhere { OnOk result (StaysElsewhere validity.now.uid places.old.entries places.new.entries) }
    ensures count { OnOk result (length places.new.entries ≤ length places.old.entries + 1) }
{
    let Some(issuer) = by else { return Ok(()) };
    if !stays(sig, number(validity.latest, &issuer)) {
        return Ok(());
    }
    let Some(other) = keep_place(places, issuer, validity.uid, at)? else {
        return Ok(());
    };
    if is_newest(sig, sig_at(sigs, other)) {
        return Ok(());
    }
    let _ = keep_place(places, issuer, validity.uid, other)?;
    Ok(())
}

fn sig_at(sigs: &[Sig], place: u32) -> Option<&Sig>
    ensures { option_copied result ≡ slice_get sigs.now place }
{
    sigs.get(place as usize)
}
