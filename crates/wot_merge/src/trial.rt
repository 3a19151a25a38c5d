//! The trial of an import: merges with a policy of its own, undoes it, and says which limit was exceeded. What is held
//! doesn't depend on the policy, so the trial asks no other. `Keyring::take` calls it before it merges, and so decides
//! the order of refusals.
ghost use Rattle.std.specs.Prelude.{◌≡◌, IfOk};
ghost use Rattle.wot_keyring_spec.specs.Import.{any_clash};
ghost use Rattle.wot_keyring_spec.specs.Importing.{alone, IsFirstFull};
ghost use Rattle.wot_keyring_spec.specs.Kept.{AreNamed, AreSortedByFpr};
ghost use Rattle.wot_keyring_spec.specs.Keyring.{stripped};
ghost use Rattle.wot_merge.specs.Staging.{full_by, IsTally, TellsClash};

use crate::staging::{Fault, Progress, Terms, put_all};
use crate::tally::{Tally, Weight};
use crate::undo::take_back;
use std::alloc::Global;
use std::collections::BTreeMap;
use wot_cert::Cert;
use wot_cert::laws::{judging, marks_weigh_nothing};
use wot_keyring_spec::Kept;
use wot_policy::{Policy, admits, standard_rows};
use wot_types::{Fpr, Limit, Limits};

/// The first limit that this number of certificates with these totals exceeds.
fn first_full_of(limits: &Limits, total: &Weight, count: u64) -> Option<Limit>
    ensures { result ≡ full_by limits.now total.now count }
{
    if total.long > 0 {
        return Some(Limit::Certificate);
    }
    if count > limits.certificates {
        return Some(Limit::Certificates);
    }
    if total.octets > limits.octets {
        return Some(Limit::Octets);
    }
    if total.signatures > limits.signatures {
        return Some(Limit::Signatures);
    }
    None
}

/// Merges on trial, undoes it, and returns the first limit that was exceeded. What is held doesn't depend on the
/// policy, so the trial uses a policy of its own.
pub fn try_all(
    alloc: Global,
    certs: &mut BTreeMap<Fpr, Kept, Global>,
    list: &[Cert],
    terms: &Terms,
    limits: &Limits,
) -> Result<Option<Limit>, Fault>
    requires named { AreNamed certs.old.entries }
    requires sorted { AreSortedByFpr certs.old.entries }
    requires tallied { IsTally terms.now.limit certs.old.entries terms.now.total }
    requires limit { terms.now.limit ≡ limits.now.certificate }
    ensures same { certs.new.entries ≡ certs.old.entries }
    ensures full { IfOk result (IsFirstFull limits.now (stripped certs.old.entries) list.now) }
    ensures clash { TellsClash result (any_clash (alone (stripped certs.old.entries)) list.now) }
{
    judging();
    marks_weigh_nothing();
    let rows = standard_rows();
    let mut policy = Policy::new(rows, |ask| admits(&rows, ask));
    let log = Vec::new(alloc);
    let tally = Tally {
        total: terms.total,
        fresh: 0,
    };
    let mut progress = Progress { log, tally };
    let tried = put_all(alloc, certs, &mut progress, list, terms, &mut policy);
    let Progress { log, tally } = progress;
    let count = certs.len() as u64;
    take_back(certs, log);
    match tried {
        Ok(()) => Ok(first_full_of(limits, &tally.total, count)),
        Err(fault) => Err(fault),
    }
}
