//! What each step of a merge replaced, and how steps are undone: the earlier certificate is set again, or the kept one
//! shrinks to what it was. Undoing never allocates. `staging` and `in_place` log their steps here; a trial undoes all
//! of them, an import does so on an error.
ghost use Rattle.std.specs.Prelude.{◌≡◌, ◌<◌, ◌+◌, ◌++◌, ◌∷◌, [], vec_len, vec_capacity, IfOk, OnOk, OnErr, None};
ghost use Rattle.std.specs.BTreeMap.{insert_entry};
ghost use Rattle.std.specs.Map.{lookup};
ghost use Rattle.wot_types.specs.Fpr.{fpr_cmp};
ghost use Rattle.wot_keyring_spec.specs.Kept.{AreSortedByFpr};
ghost use Rattle.wot_keyring_spec.specs.Keyring.{Entries, is_fpr};
ghost use Rattle.wot_merge.specs.Staging.{IsThere, IsLog, LeadsBack};
ghost use Rattle.wot_merge.specs.Staging.{StillLeadsBack, MayShrink, shrunk_at};

use std::alloc::Global;
use std::collections::BTreeMap;
use wot_cert::Growth;
use wot_keyring_spec::{Kept, take_out};
use wot_types::{Fpr, Memory};

/// What was kept under a fingerprint before a step.
#[derive(Drop)]
pub enum Before {
    /// This certificate, or none.
    Was(Option<Kept>),
    /// The current certificate without this growth, with its earlier stamp.
    Smaller(Growth, u64),
}

/// A fingerprint, and what was kept under it before.
#[derive(Drop)]
pub struct Was {
    pub fpr: Fpr,
    pub before: Before,
}

/// Sets the certificate of a fingerprint and returns the earlier one. On `Memory` nothing changes.
fn keep(
    certs: &mut BTreeMap<Fpr, Kept, Global>,
    fpr: Fpr,
    kept: Kept,
) -> Result<Option<Kept>, Memory>
    ensures was { IfOk result (λ was. was ≡ lookup (is_fpr fpr) certs.old.entries) }
    ensures entries { OnOk result (certs.new.entries ≡ insert_entry fpr_cmp certs.old.entries fpr kept) }
    ensures absent { OnErr result (lookup (is_fpr fpr) certs.old.entries ≡ None) }
    ensures same { OnErr result (certs.new.entries ≡ certs.old.entries) }
    ensures was_in_order { AreSortedByFpr certs.old.entries }
    ensures sorted { AreSortedByFpr certs.new.entries }
{
    match certs.insert(fpr, kept) {
        Ok(was) => Ok(was),
        Err(_) => Err(Memory),
    }
}

/// Sets an earlier certificate again under a fingerprint that is there. Doesn't allocate.
fn keep_again(certs: &mut BTreeMap<Fpr, Kept, Global>, fpr: Fpr, kept: Kept)
    ensures again { IsThere certs.old.entries fpr → certs.new.entries
        ≡ insert_entry fpr_cmp certs.old.entries fpr kept }
{
    let Err(_) = keep(certs, fpr, kept) else {
        return;
    };
}

/// Removes what a certificate grew by, and restores its stamp. Doesn't allocate.
fn shrink_at(certs: &mut BTreeMap<Fpr, Kept, Global>, fpr: &Fpr, growth: Growth, stamp: u64)
    requires may { MayShrink growth (lookup (is_fpr fpr.now) certs.old.entries) }
    ensures shrunk { certs.new.entries ≡ shrunk_at certs.old.entries fpr.now growth stamp }
{
    if let Some(kept) = certs.get_mut(fpr) {
        kept.cert.shrink(growth);
        kept.stamp = stamp;
    }
}

/// Undoes one step. Doesn't allocate.
fn put_back(certs: &mut BTreeMap<Fpr, Kept, Global>, was: Was)
    requires leads { (first : Entries) × LeadsBack first was certs.old.entries }
    ensures back { (first : Entries) → LeadsBack first was certs.old.entries → certs.new.entries ≡ first }
{
    let Was { fpr, before } = was;
    match before {
        Before::Was(Some(kept)) => keep_again(certs, fpr, kept),
        Before::Was(None) => take_out(certs, &fpr),
        Before::Smaller(growth, stamp) => shrink_at(certs, &fpr, growth, stamp),
    }
}

/// Undoes all steps of a log, the last one first.
pub fn take_back(certs: &mut BTreeMap<Fpr, Kept, Global>, mut log: Vec<Was>)
    requires leads { (first : Entries) × IsLog first log.items certs.old.entries }
    ensures back { (first : Entries) → IsLog first log.items certs.old.entries → certs.new.entries ≡ first }
{
    'log: while let Some(was) = log.pop() {
        put_back(certs, was);
    }
}

/// Logs what was kept before a step. The log has room.
pub fn note(log: &mut Vec<Was>, was: Was)
    requires room { vec_len log.old < vec_capacity log.old }
    ensures noted { log.new.items ≡ log.old.items ++ was ∷ [] }
{
    let _ = log.push(was);
}

/// Sets the certificate of a fingerprint, and logs what was there.
pub fn put(
    certs: &mut BTreeMap<Fpr, Kept, Global>,
    log: &mut Vec<Was>,
    fpr: Fpr,
    kept: Kept,
) -> Result<(), Memory>
    ensures entries { OnOk result (certs.new.entries ≡ insert_entry fpr_cmp certs.old.entries fpr kept) }
    ensures sorted { OnOk result (AreSortedByFpr certs.old.entries × AreSortedByFpr certs.new.entries) }
    ensures log { StillLeadsBack log.old.items certs.old.entries log.new.items certs.new.entries }
{
    log.reserve(1)?;
    let was = keep(certs, fpr, kept)?;
    note(
        log,
        Was {
            fpr,
            before: Before::Was(was),
        },
    );
    Ok(())
}
