//! Keeps a certificate of a key that isn't kept yet: marked by a policy, and otherwise as it was read. So an import of
//! one new certificate copies nothing. `put_new` has the contract of a merge by `staging`, and is logged and counted as
//! one. wot_keyring calls it.
ghost use Rattle.std.specs.Prelude.{◌≡◌, ◌≤◌, ◌^◌, ◌∷◌, [], None, IfOk, OnErr, OnOk};
ghost use Rattle.wot_policy.specs.Kept.{IsFaithful, rows_of};
ghost use Rattle.wot_component.specs.Asking.{AsksOnOk};
ghost use Rattle.wot_component.specs.Judged.{sound_of};
ghost use Rattle.wot_component.specs.Text.{size_of};
ghost use Rattle.wot_keyring_spec.specs.Kept.{AreSortedByFpr, AreJudged};
ghost use Rattle.wot_merge.specs.Staging.{AsksForNew, AsksToJoin, Counts, IsMergedOn, IsStaged, IsTally};
ghost use Rattle.wot_merge.specs.Staging.{StillLeadsBack, TellsClash, clash_at, found_for, kept_with};

use crate::staging::{Fault, Progress, Staged, Step, Terms, put_staged};
use crate::tally::{NOTHING, count, is_held, weigh_cert};
use crate::undo::Was;
use std::alloc::Global;
use std::collections::BTreeMap;
use wot_cert::Cert;
use wot_cert::laws::{judging, marks_weigh_nothing, united_grows};
use wot_keyring_spec::Kept;
use wot_policy::{Ask, Policy};
use wot_types::{Fpr, Memory};

/// The step that keeps a certificate of a new key, marked by a policy. Only a certificate of 2^62 octets doesn't fit in
/// memory.
fn adopt<F: Fn(Ask) -> bool>(
    mut cert: Cert,
    terms: &Terms,
    policy: &mut Policy<F>,
) -> Result<Staged, Memory>
    requires faithful { IsFaithful F.Fn policy.old }
    ensures step { IfOk result (IsStaged (rows_of policy.old) terms.now.stamp terms.now.limit None cert) }
    ensures great { OnErr result (2 ^ 62 ≤ size_of cert) }
    ensures asked { AsksOnOk result policy.old policy.new (λ k. k ≡ sound_of cert) }
    ensures faithful { IsFaithful F.Fn policy.new }
{
    marks_weigh_nothing();
    judging();
    if !is_held(&cert) {
        return Err(Memory);
    }
    cert.judge(policy);
    let after = weigh_cert(&cert, terms.limit);
    // Its key is counted by itself.
    let others = cert.items() - 1;
    let kept = Kept {
        cert,
        stamp: terms.stamp,
    };
    Ok(Staged {
        kept,
        before: NOTHING,
        after,
        items: others,
        keys: 1,
    })
}

/// Keeps a certificate of a new key, marked by a policy, and logs that. On an error the log still undoes everything.
fn put_first<F: Fn(Ask) -> bool>(
    certs: &mut BTreeMap<Fpr, Kept, Global>,
    log: &mut Vec<Was>,
    cert: Cert,
    terms: &Terms,
    policy: &mut Policy<F>,
) -> Result<Step, Fault>
    requires absent { found_for certs.old.entries cert ≡ None }
    requires faithful { IsFaithful F.Fn policy.old }
    ensures merged { IfOk result
        (IsMergedOn (rows_of policy.old) terms.now cert certs.old.entries certs.new.entries) }
    ensures log { StillLeadsBack log.old.items certs.old.entries log.new.items certs.new.entries }
    ensures clash { TellsClash result (clash_at (found_for certs.old.entries cert) cert) }
    ensures asked { AsksToJoin result policy.old policy.new (found_for certs.old.entries cert) cert }
    ensures faithful { IsFaithful F.Fn policy.new }
{
    marks_weigh_nothing();
    united_grows();
    let fpr = cert.fpr();
    let staged = match adopt(cert, terms, policy) {
        Ok(staged) => staged,
        Err(Memory) => return Err(Fault::Memory),
    };
    match put_staged(certs, log, fpr, staged) {
        Ok(step) => Ok(step),
        Err(Memory) => Err(Fault::Memory),
    }
}

/// Keeps a certificate of a key that isn't kept yet, marked by a policy, logs that, and updates the tally. The
/// certificate itself is kept: nothing is copied. On an error the log still undoes everything.
pub fn put_new<F: Fn(Ask) -> bool>(
    certs: &mut BTreeMap<Fpr, Kept, Global>,
    progress: &mut Progress,
    cert: Cert,
    terms: &Terms,
    policy: &mut Policy<F>,
) -> Result<(), Fault>
    requires absent { found_for certs.old.entries cert ≡ None }
    requires sorted { AreSortedByFpr certs.old.entries }
    requires tallied { IsTally terms.now.limit certs.old.entries progress.old.tally.total }
    requires faithful { IsFaithful F.Fn policy.old }
    ensures put { OnOk result (certs.new.entries
        ≡ kept_with (rows_of policy.old) terms.now.stamp certs.old.entries cert) }
    ensures sorted { OnOk result (AreSortedByFpr certs.new.entries) }
    ensures log { StillLeadsBack progress.old.log.items certs.old.entries progress.new.log.items certs.new.entries }
    ensures tallied { OnOk result (IsTally terms.now.limit certs.new.entries progress.new.tally.total) }
    ensures fresh { OnOk result (Counts certs.old.entries certs.new.entries progress.old.tally progress.new.tally) }
    ensures clash { TellsClash result (clash_at (found_for certs.old.entries cert) cert) }
    ensures asked { AsksForNew result policy.old policy.new terms.now.stamp certs.old.entries (cert ∷ []) }
    ensures judged { OnOk result (AreJudged (rows_of policy.old) certs.old.entries
        → AreJudged (rows_of policy.old) certs.new.entries) }
    ensures faithful { IsFaithful F.Fn policy.new }
{
    let step = match put_first(certs, &mut progress.log, cert, terms, policy) {
        Ok(step) => step,
        Err(fault) => return Err(fault),
    };
    match count(&mut progress.tally, &step) {
        Ok(()) => Ok(()),
        Err(Memory) => Err(Fault::Memory),
    }
}
