//! Merges a small certificate into a kept one in place, so that an import costs what it brings, however large the kept
//! certificate is. `staging` calls it and undoes it through the log. It uses wot_cert's `grow` and `shrink`; its
//! contracts are those of the merge by a copy, so callers see no difference.
ghost use Rattle.std.specs.Prelude.{◌≡◌, ◌<◌, vec_len, vec_capacity, is_some, true, IfOk, OnErr, Some};
ghost use Rattle.wot_policy.specs.Kept.{IsFaithful, rows_of};
ghost use Rattle.wot_keyring_spec.specs.Kept.{AreSortedByFpr};
ghost use Rattle.wot_merge.specs.Staging.{clash_at, found_for, AsksToJoin, GrowsTo, IsMergedOn, StillLeadsBack};
ghost use Rattle.wot_merge.specs.Staging.{TellsClash};

use crate::staging::{Fault, Step, Terms, stamp_of};
use crate::tally::{Weight, are_held, weigh_cert};
use crate::undo::{Before, Was, note};
use std::alloc::Global;
use std::collections::BTreeMap;
use wot_cert::laws::{marks_weigh_nothing, united_grows};
use wot_cert::{Cert, Growth, MergeFault};
use wot_keyring_spec::{Kept, find};
use wot_policy::{Ask, Policy};
use wot_types::Fpr;

/// By which factor a kept certificate has to be larger than the one merged into it, to grow in place. Each insertion
/// moves what comes after it, so below this factor a copy is cheaper.
const LARGER: u64 = 16;

/// Whether a certificate is small compared with the kept one of its fingerprint.
pub(crate) fn is_small_beside(certs: &BTreeMap<Fpr, Kept, Global>, cert: &Cert) -> bool
    ensures held { result ≡ true → is_some (found_for certs.now.entries cert.now) ≡ true }
{
    match find(certs, &cert.fpr()) {
        Some(kept) => cert.size() < kept.cert.size() / LARGER,
        None => false,
    }
}

/// How a kept certificate grew.
#[derive(Drop)]
pub(crate) struct Leap {
    before: Weight,
    after: Weight,
    growth: Growth,
    /// The components and signatures that are new.
    items: u64,
    /// The stamp before the merge.
    stamp: u64,
}

/// Merges another certificate into a kept one under a policy, and sets the stamp if anything was added.
fn grow_kept<F: Fn(Ask) -> bool>(
    alloc: Global,
    kept: &mut Kept,
    cert: &Cert,
    terms: &Terms,
    policy: &mut Policy<F>,
) -> Result<Leap, Fault>
    requires faithful { IsFaithful F.Fn policy.old }
    ensures grows { IfOk result
        (GrowsTo (rows_of policy.old) terms.now.stamp terms.now.limit cert.now kept.old kept.new) }
    ensures same { OnErr result (kept.new ≡ kept.old) }
    ensures clash { TellsClash result (clash_at (Some kept.old) cert.now) }
    ensures asked { AsksToJoin result policy.old policy.new (Some kept.old) cert.now }
    ensures faithful { IsFaithful F.Fn policy.new }
{
    united_grows();
    marks_weigh_nothing();
    if !are_held(&kept.cert, cert) {
        return Err(Fault::Memory);
    }
    let before = weigh_cert(&kept.cert, terms.limit);
    match kept.cert.grow(alloc, cert, policy) {
        Ok(growth) => {
            let items = growth.items;
            let stamp = kept.stamp;
            kept.stamp = stamp_of(Some(stamp), items, terms.stamp);
            Ok(Leap {
                before,
                after: weigh_cert(&kept.cert, terms.limit),
                growth,
                items,
                stamp,
            })
        }
        Err(MergeFault::Clash) => Err(Fault::Clash),
        Err(MergeFault::Memory) => Err(Fault::Memory),
    }
}

/// Merges a certificate in place into the kept one of its fingerprint under a policy, and logs how that grew. There is
/// one, and the log has room. On an error it still undoes everything.
pub(crate) fn grow_at<F: Fn(Ask) -> bool>(
    alloc: Global,
    cert: &Cert,
    certs: &mut BTreeMap<Fpr, Kept, Global>,
    log: &mut Vec<Was>,
    terms: &Terms,
    policy: &mut Policy<F>,
) -> Result<Step, Fault>
    requires faithful { IsFaithful F.Fn policy.old }
    requires sorted { AreSortedByFpr certs.old.entries }
    requires room { vec_len log.old < vec_capacity log.old }
    requires held { is_some (found_for certs.old.entries cert.now) ≡ true }
    ensures merged { IfOk result
        (IsMergedOn (rows_of policy.old) terms.now cert.now certs.old.entries certs.new.entries) }
    ensures log { StillLeadsBack log.old.items certs.old.entries log.new.items certs.new.entries }
    ensures clash { TellsClash result (clash_at (found_for certs.old.entries cert.now) cert.now) }
    ensures asked { AsksToJoin result policy.old policy.new (found_for certs.old.entries cert.now) cert.now }
    ensures faithful { IsFaithful F.Fn policy.new }
{
    let fpr = cert.fpr();
    match certs.get_mut(&fpr) {
        Some(kept) => match grow_kept(alloc, kept, cert, terms, policy) {
            Ok(leap) => {
                let Leap {
                    before,
                    after,
                    growth,
                    items,
                    stamp,
                } = leap;
                note(
                    log,
                    Was {
                        fpr,
                        before: Before::Smaller(growth, stamp),
                    },
                );
                Ok(Step {
                    before,
                    after,
                    items,
                    keys: 0,
                })
            }
            Err(fault) => Err(fault),
        },
        None => unreachable!(),
    }
}
