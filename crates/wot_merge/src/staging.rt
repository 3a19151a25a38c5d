//! Merges certificates into the keyring one after the other. Each step is logged, so that `undo` can take it back, and
//! counted, so that limits need no walk over the keyring. `in_place` is the cheaper step for a small certificate.
//! `trial` and wot_keyring call `put_all`.
ghost use Rattle.std.specs.Prelude.{◌≡◌, ◌<◌, ◌+◌, ◌∷◌, [], IfOk, OnOk, None, not};
ghost use Rattle.std.specs.Prelude.{nat_eq};
ghost use Rattle.std.specs.Option.{option_map};
ghost use Rattle.std.specs.Cmp.Lexicographic.{pointwise};
ghost use Rattle.wot_policy.specs.Kept.{IsFaithful, rows_of};
ghost use Rattle.wot_component.specs.Certificate.{unite};
ghost use Rattle.wot_component.specs.Counts.{items_of};
ghost use Rattle.wot_component.specs.Judged.{IsJudged, judged, sound_of};
ghost use Rattle.wot_component.specs.Whole.{IsCertificate};
ghost use Rattle.wot_keyring_spec.specs.Kept.{AreSortedByFpr, AreJudged};
ghost use Rattle.wot_keyring_spec.specs.declared.kept.Kept.{Kept as TheKept};
ghost use Rattle.wot_merge.specs.Staging.{begun, found_for, stamp_over, clash_at, kept_with, kept_all, clash_in};
ghost use Rattle.wot_merge.specs.Staging.{AsksForNew, AsksToJoin, Counts, IsMergedOn, IsPut, IsStepOf};
ghost use Rattle.wot_merge.specs.Staging.{IsTally, StillLeadsBack, TellsClash, Weighs};
ghost use Rattle.wot_component.specs.Asking.{AsksOnOk};

use crate::in_place::{grow_at, is_small_beside};
use crate::tally::{NOTHING, Tally, Weight, are_held, count, weigh_cert};
use crate::undo::{Was, put};
use std::alloc::Global;
use std::collections::BTreeMap;
use wot_cert::laws::{marks_weigh_nothing, united_grows, united_whole, united_with_nothing};
use wot_cert::{Cert, MergeFault};
use wot_keyring_spec::{Kept, find};
use wot_policy::{Ask, Policy};
use wot_types::{Fpr, Memory};

/// Why certificates were not merged.
#[derive(Clone, Copy)]
pub enum Fault {
    /// Two keys have the same fingerprint.
    Clash,
    /// Out of memory.
    Memory,
}

/// A certificate to merge into, with its stamp if it is kept.
#[derive(Drop)]
struct Start {
    cert: Cert,
    stamp: Option<u64>,
}

/// A copy of the kept certificate of the same fingerprint, or the bare key.
fn begin(alloc: Global, certs: &BTreeMap<Fpr, Kept, Global>, cert: &Cert) -> Result<Start, Memory>
    ensures cert { IfOk result (λ start. start.cert ≡ begun (found_for certs.now.entries cert.now) cert.now) }
    ensures whole { IsCertificate cert.now }
    ensures stamp { IfOk result (λ start. start.stamp
        ≡ option_map (λ (x : TheKept). x.stamp) (found_for certs.now.entries cert.now)) }
{
    let fpr = cert.fpr();
    match find(certs, &fpr) {
        Some(kept) => {
            let stamp = Some(kept.stamp);
            match kept.cert.duplicate(alloc) {
                Ok(cert) => Ok(Start { cert, stamp }),
                Err(Memory) => Err(Memory),
            }
        }
        // The key of a certificate can always be parsed.
        None => match Cert::bare(alloc, cert.body()) {
            Ok(Some(cert)) => Ok(Start { cert, stamp: None }),
            Ok(None) => unreachable!(),
            Err(Memory) => Err(Memory),
        },
    }
}

/// What a merge did.
#[derive(Clone, Copy)]
pub struct Grown {
    pub before: Weight,
    pub after: Weight,
    /// The components and signatures that are new.
    pub items: u64,
}

/// Merges a certificate into another under a policy.
fn grow<F: Fn(Ask) -> bool>(
    alloc: Global,
    start: &mut Cert,
    cert: &Cert,
    limit: u64,
    policy: &mut Policy<F>,
) -> Result<Grown, Fault>
    requires faithful { IsFaithful F.Fn policy.old }
    ensures united { OnOk result (start.new ≡ unite start.old (judged (rows_of policy.old) cert.now)) }
    ensures clash { TellsClash result (not (pointwise nat_eq cert.now.key start.old.key)) }
    ensures before { IfOk result (λ grown. Weighs limit grown.before start.old) }
    ensures after { IfOk result (λ grown. Weighs limit grown.after start.new) }
    ensures items { IfOk result (λ grown. grown.items + items_of start.old ≡ items_of start.new) }
    ensures asked { AsksOnOk result policy.old policy.new (λ k. k + sound_of start.old ≡ sound_of start.new) }
    ensures judged { IsJudged (rows_of policy.old) start.old → IsJudged (rows_of policy.old) start.new }
    ensures faithful { IsFaithful F.Fn policy.new }
{
    united_grows();
    marks_weigh_nothing();
    if !are_held(start, cert) {
        return Err(Fault::Memory);
    }
    let before = weigh_cert(start, limit);
    match start.merge(alloc, cert, policy) {
        Ok(items) => Ok(Grown {
            before,
            after: weigh_cert(start, limit),
            items,
        }),
        Err(MergeFault::Clash) => Err(Fault::Clash),
        Err(MergeFault::Memory) => Err(Fault::Memory),
    }
}

/// The stamp, the size limit and the totals for the certificates that are merged.
#[derive(Clone, Copy)]
pub struct Terms {
    /// The stamp for what is altered.
    pub stamp: u64,
    /// The limit on a certificate's size.
    pub limit: u64,
    /// The totals before the merge.
    pub total: Weight,
}

/// How far a merge has come: what undoes it, and the totals so far.
#[derive(Drop)]
pub struct Progress {
    pub log: Vec<Was>,
    pub tally: Tally,
}

/// The result of merging one certificate with what is kept.
#[derive(Drop)]
pub struct Staged {
    /// What is kept afterwards.
    pub kept: Kept,
    pub before: Weight,
    pub after: Weight,
    /// The components and signatures that are new.
    pub items: u64,
    /// 1 if the key is new, else 0.
    pub keys: u64,
}

pub fn stamp_of(old: Option<u64>, items: u64, stamp: u64) -> u64
    ensures { result ≡ stamp_over stamp old items }
{
    match old {
        Some(old) => { if items == 0 { old } else { stamp } }
        None => stamp,
    }
}

/// Merges a certificate with what is kept under its fingerprint, under a policy.
fn take_step<F: Fn(Ask) -> bool>(
    alloc: Global,
    certs: &BTreeMap<Fpr, Kept, Global>,
    cert: &Cert,
    terms: &Terms,
    policy: &mut Policy<F>,
) -> Result<Staged, Fault>
    requires faithful { IsFaithful F.Fn policy.old }
    ensures step { IfOk result
        (IsStepOf (rows_of policy.old) terms.now.stamp terms.now.limit certs.now.entries cert.now) }
    ensures clash { TellsClash result (clash_at (found_for certs.now.entries cert.now) cert.now) }
    ensures asked { AsksToJoin result policy.old policy.new (found_for certs.now.entries cert.now) cert.now }
    ensures faithful { IsFaithful F.Fn policy.new }
{
    united_with_nothing();
    united_whole();
    united_grows();
    let start = match begin(alloc, certs, cert) {
        Ok(start) => start,
        Err(Memory) => return Err(Fault::Memory),
    };
    let Start {
        cert: mut united,
        stamp: old,
    } = start;
    let grown = match grow(alloc, &mut united, cert, terms.limit, policy) {
        Ok(grown) => grown,
        Err(fault) => return Err(fault),
    };
    let Grown {
        before,
        after,
        items,
    } = grown;
    let stamp = stamp_of(old, items, terms.stamp);
    let kept = Kept {
        cert: united,
        stamp,
    };
    match old {
        Some(_) => Ok(Staged {
            kept,
            before,
            after,
            items,
            keys: 0,
        }),
        None => Ok(Staged {
            kept,
            before: NOTHING,
            after,
            items,
            keys: 1,
        }),
    }
}

/// What one certificate changed among the kept ones.
#[derive(Clone, Copy)]
pub(crate) struct Step {
    pub before: Weight,
    pub after: Weight,
    /// The components and signatures that are new.
    pub items: u64,
    /// 1 if the key is new, else 0.
    pub keys: u64,
}

/// Keeps what a step led to, and logs what was kept before. On an error the log still undoes everything.
pub(crate) fn put_staged(
    certs: &mut BTreeMap<Fpr, Kept, Global>,
    log: &mut Vec<Was>,
    fpr: Fpr,
    staged: Staged,
) -> Result<Step, Memory>
    ensures put { IfOk result (IsPut staged fpr certs.old.entries certs.new.entries) }
    ensures log { StillLeadsBack log.old.items certs.old.entries log.new.items certs.new.entries }
{
    let Staged {
        kept,
        before,
        after,
        items,
        keys,
    } = staged;
    match put(certs, log, fpr, kept) {
        Ok(()) => Ok(Step {
            before,
            after,
            items,
            keys,
        }),
        Err(Memory) => Err(Memory),
    }
}

/// Merges one certificate under a policy and logs what was kept: in place if it is small compared with the kept one,
/// else with a copy. On an error the log still undoes everything.
fn put_one<F: Fn(Ask) -> bool>(
    alloc: Global,
    certs: &mut BTreeMap<Fpr, Kept, Global>,
    log: &mut Vec<Was>,
    cert: &Cert,
    terms: &Terms,
    policy: &mut Policy<F>,
) -> Result<Step, Fault>
    requires faithful { IsFaithful F.Fn policy.old }
    requires sorted { AreSortedByFpr certs.old.entries }
    ensures merged { IfOk result
        (IsMergedOn (rows_of policy.old) terms.now cert.now certs.old.entries certs.new.entries) }
    ensures log { StillLeadsBack log.old.items certs.old.entries log.new.items certs.new.entries }
    ensures clash { TellsClash result (clash_at (found_for certs.old.entries cert.now) cert.now) }
    ensures asked { AsksToJoin result policy.old policy.new (found_for certs.old.entries cert.now) cert.now }
    ensures faithful { IsFaithful F.Fn policy.new }
{
    united_grows();
    if is_small_beside(certs, cert) {
        return match log.reserve(1) {
            Ok(()) => grow_at(alloc, cert, certs, log, terms, policy),
            Err(_) => Err(Fault::Memory),
        };
    }
    let staged = match take_step(alloc, certs, cert, terms, policy) {
        Ok(staged) => staged,
        Err(fault) => return Err(fault),
    };
    match put_staged(certs, log, cert.fpr(), staged) {
        Ok(step) => Ok(step),
        Err(Memory) => Err(Fault::Memory),
    }
}

/// Merges one certificate under a policy, logs what was kept, and updates the tally. On an error the log still undoes
/// everything.
fn put_next<F: Fn(Ask) -> bool>(
    alloc: Global,
    certs: &mut BTreeMap<Fpr, Kept, Global>,
    progress: &mut Progress,
    cert: &Cert,
    terms: &Terms,
    policy: &mut Policy<F>,
) -> Result<(), Fault>
    requires sorted { AreSortedByFpr certs.old.entries }
    requires tallied { IsTally terms.now.limit certs.old.entries progress.old.tally.total }
    requires faithful { IsFaithful F.Fn policy.old }
    ensures put { OnOk result (certs.new.entries
        ≡ kept_with (rows_of policy.old) terms.now.stamp certs.old.entries cert.now) }
    ensures sorted { OnOk result (AreSortedByFpr certs.new.entries) }
    ensures log { StillLeadsBack progress.old.log.items certs.old.entries progress.new.log.items certs.new.entries }
    ensures tallied { OnOk result (IsTally terms.now.limit certs.new.entries progress.new.tally.total) }
    ensures fresh { OnOk result (Counts certs.old.entries certs.new.entries progress.old.tally progress.new.tally) }
    ensures clash { TellsClash result (clash_at (found_for certs.old.entries cert.now) cert.now) }
    ensures asked { AsksForNew result policy.old policy.new terms.now.stamp certs.old.entries (cert.now ∷ []) }
    ensures judged { OnOk result (AreJudged (rows_of policy.old) certs.old.entries
        → AreJudged (rows_of policy.old) certs.new.entries) }
    ensures faithful { IsFaithful F.Fn policy.new }
{
    let step = match put_one(alloc, certs, &mut progress.log, cert, terms, policy) {
        Ok(step) => step,
        Err(fault) => return Err(fault),
    };
    match count(&mut progress.tally, &step) {
        Ok(()) => Ok(()),
        Err(Memory) => Err(Fault::Memory),
    }
}

/// Merges certificates one after the other under a policy, logs what was kept, and updates the tally. On an error the
/// log still undoes everything.
pub fn put_all<F: Fn(Ask) -> bool>(
    alloc: Global,
    certs: &mut BTreeMap<Fpr, Kept, Global>,
    progress: &mut Progress,
    list: &[Cert],
    terms: &Terms,
    policy: &mut Policy<F>,
) -> Result<(), Fault>
    requires faithful { IsFaithful F.Fn policy.old }
    requires sorted { AreSortedByFpr certs.old.entries }
    requires tallied { IsTally terms.now.limit certs.old.entries progress.old.tally.total }
    ensures put { OnOk result (certs.new.entries
        ≡ kept_all (rows_of policy.old) terms.now.stamp certs.old.entries list.now) }
    ensures sorted { OnOk result (AreSortedByFpr certs.new.entries) }
    ensures log { StillLeadsBack progress.old.log.items certs.old.entries progress.new.log.items certs.new.entries }
    ensures tallied { OnOk result (IsTally terms.now.limit certs.new.entries progress.new.tally.total) }
    ensures fresh { OnOk result (Counts certs.old.entries certs.new.entries progress.old.tally progress.new.tally) }
    ensures clash { TellsClash result (clash_in (rows_of policy.old) terms.now.stamp certs.old.entries list.now) }
    ensures asked { AsksForNew result policy.old policy.new terms.now.stamp certs.old.entries list.now }
    ensures judged { OnOk result (AreJudged (rows_of policy.old) certs.old.entries
        → AreJudged (rows_of policy.old) certs.new.entries) }
    ensures faithful { IsFaithful F.Fn policy.new }
{
    united_grows();
    let mut left = list;
    'left: while let Some((cert, rest)) = left.split_first() {
        match put_next(alloc, certs, progress, cert, terms, policy) {
            Ok(()) => {}
            Err(fault) => return Err(fault),
        }
        left = rest;
    }
    Ok(())
}
