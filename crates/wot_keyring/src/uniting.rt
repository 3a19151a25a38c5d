//! The merge of an accepted import: all certificates are merged with the kept ones, their signatures are noted in the
//! index, and the change is logged. A certificate that comes alone and is new is kept itself, so nothing of it is
//! copied. It uses wot_merge, whose log of steps undoes the merge if memory runs out, and wot_index.
//! `Keyring::accept` calls it.
ghost use Rattle.std.specs.Prelude.{◌≡◌, ◌≤◌, ◌+◌, ◌∷◌, [], None, IfOk, IfNone, OnOk, OnErr};
ghost use Rattle.std.specs.Option.{IfSome};
ghost use Rattle.wot_policy.specs.Kept.{IsFaithful, rows_of};
ghost use Rattle.wot_component.specs.Counts.{items_of};
ghost use Rattle.wot_keyring_spec.specs.Kept.{AreSortedByFpr, AreJudged};
ghost use Rattle.wot_merge.specs.Staging.{kept_all, clash_in, found_for, weigh_kept, AsksForNew, Counts, IsTally};
ghost use Rattle.wot_merge.specs.Staging.{StillLeadsBack, TellsClash};
ghost use Rattle.wot_keyring.specs.Uniting.{certs_in, LogsOnOk, NamesSame, NotesOnOk};

use std::alloc::Global;
use std::collections::BTreeMap;
use std::slice::from_ref;
use wot_cert::Cert;
use wot_index::log::{Log, log_union};
use wot_index::{Index, note_all};
use wot_keyring_spec::{Kept, find};
use wot_merge::{Fault, Progress, Tally, Terms, only, put_all, put_new, take_back};
use wot_policy::{Ask, Policy};
use wot_types::{Fpr, Memory};

/// Where the certificates of an import are after the merge.
#[derive(Drop)]
pub(crate) enum Merged {
    /// Kept under this fingerprint: it came alone and was new.
    New(Fpr),
    /// Still in this list.
    Listed(Vec<Cert>),
}

/// Takes the only certificate out of a list, if no certificate of its fingerprint is kept.
fn take_new(certs: &BTreeMap<Fpr, Kept, Global>, list: &mut Vec<Cert>) -> Option<Cert>
    ensures only { IfSome result (λ cert. list.old.items ≡ cert ∷ []) }
    ensures absent { IfSome result (λ cert. found_for certs.now.entries cert ≡ None) }
    ensures same { IfNone result (list.new.items ≡ list.old.items) }
{
    let Some(cert) = only(list.as_slice()) else {
        return None;
    };
    let fpr = cert.fpr();
    match find(certs, &fpr) {
        Some(_) => None,
        None => list.pop(),
    }
}

/// Merges all certificates with the kept ones under a policy, logs each step, and updates the tally. On an error the
/// steps still undo everything.
fn put_listed<F: Fn(Ask) -> bool>(
    alloc: Global,
    certs: &mut BTreeMap<Fpr, Kept, Global>,
    progress: &mut Progress,
    mut list: Vec<Cert>,
    terms: &Terms,
    policy: &mut Policy<F>,
) -> Result<Merged, Fault>
    requires sorted { AreSortedByFpr certs.old.entries }
    requires tallied { IsTally terms.now.limit certs.old.entries progress.old.tally.total }
    requires faithful { IsFaithful F.Fn policy.old }
    ensures put { OnOk result (certs.new.entries
        ≡ kept_all (rows_of policy.old) terms.now.stamp certs.old.entries list.items) }
    ensures merged { IfOk result (λ merged. NamesSame (certs_in certs.new.entries merged) list.items) }
    ensures sorted { OnOk result (AreSortedByFpr certs.new.entries) }
    ensures log { StillLeadsBack progress.old.log.items certs.old.entries progress.new.log.items certs.new.entries }
    ensures tallied { OnOk result (IsTally terms.now.limit certs.new.entries progress.new.tally.total) }
    ensures fresh { OnOk result (Counts certs.old.entries certs.new.entries progress.old.tally progress.new.tally) }
    ensures clash { TellsClash result (clash_in (rows_of policy.old) terms.now.stamp certs.old.entries list.items) }
    ensures asked { AsksForNew result policy.old policy.new terms.now.stamp certs.old.entries list.items }
    ensures judged { OnOk result (AreJudged (rows_of policy.old) certs.old.entries
        → AreJudged (rows_of policy.old) certs.new.entries) }
    ensures faithful { IsFaithful F.Fn policy.new }
{
    match take_new(certs, &mut list) {
        Some(cert) => {
            let fpr = cert.fpr();
            match put_new(certs, progress, cert, terms, policy) {
                Ok(()) => Ok(Merged::New(fpr)),
                Err(fault) => Err(fault),
            }
        }
        None => match put_all(alloc, certs, progress, list.as_slice(), terms, policy) {
            Ok(()) => Ok(Merged::Listed(list)),
            Err(fault) => Err(fault),
        },
    }
}

/// The certificates of an import after the merge, to note and to log them.
fn certs_in<'a>(certs: &'a BTreeMap<Fpr, Kept, Global>, merged: &'a Merged) -> &'a [Cert]
    ensures { result.now ≡ certs_in certs.now.entries merged.now }
{
    match merged {
        Merged::New(fpr) => match find(certs, fpr) {
            Some(kept) => from_ref(&kept.cert),
            None => &[],
        },
        Merged::Listed(list) => list.as_slice(),
    }
}

/// Merges all certificates with the kept ones under a policy, notes where their signatures are, and logs the change if
/// anything is new. Leaves everything unchanged on an error.
pub(crate) fn unite_all<F: Fn(Ask) -> bool>(
    alloc: Global,
    certs: &mut BTreeMap<Fpr, Kept, Global>,
    index: &mut Index,
    log: &mut Log,
    list: Vec<Cert>,
    terms: &Terms,
    policy: &mut Policy<F>,
) -> Result<Tally, Fault>
    requires faithful { IsFaithful F.Fn policy.old }
    requires sorted { AreSortedByFpr certs.old.entries }
    requires tallied { IsTally terms.now.limit certs.old.entries terms.now.total }
    requires from { log.old.from ≤ terms.now.stamp }
    ensures put { OnOk result (certs.new.entries
        ≡ kept_all (rows_of policy.old) terms.now.stamp certs.old.entries list.items) }
    ensures same { OnErr result (certs.new.entries ≡ certs.old.entries) }
    ensures sorted { OnOk result (AreSortedByFpr certs.new.entries) }
    ensures tallied { IfOk result (λ tally. IsTally terms.now.limit certs.new.entries tally.total) }
    ensures fresh { IfOk result (λ tally. tally.fresh + weigh_kept items_of certs.old.entries
        ≡ weigh_kept items_of certs.new.entries) }
    ensures clash { TellsClash result (clash_in (rows_of policy.old) terms.now.stamp certs.old.entries list.items) }
    ensures asked { AsksForNew result policy.old policy.new terms.now.stamp certs.old.entries list.items }
    ensures judged { OnOk result (AreJudged (rows_of policy.old) certs.old.entries
        → AreJudged (rows_of policy.old) certs.new.entries) }
    ensures faithful { IsFaithful F.Fn policy.new }
    ensures noted { NotesOnOk result list.items index.old index.new }
    ensures logged { LogsOnOk result terms.now.stamp list.items log.old log.new }
{
    let steps = Vec::new(alloc);
    let tally = Tally {
        total: terms.total,
        fresh: 0,
    };
    let mut progress = Progress { log: steps, tally };
    let united = put_listed(alloc, certs, &mut progress, list, terms, policy);
    let Progress { log: steps, tally } = progress;
    match united {
        Ok(merged) => {
            let named = certs_in(certs, &merged);
            match note_all(alloc, index, named) {
                Ok(()) => {
                    log_union(log, tally.fresh, terms.stamp, named);
                    Ok(tally)
                }
                Err(Memory) => {
                    take_back(certs, steps);
                    Err(Fault::Memory)
                }
            }
        }
        Err(fault) => {
            take_back(certs, steps);
            Err(fault)
        }
    }
}
