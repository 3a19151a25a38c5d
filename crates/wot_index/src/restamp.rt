//! Stamps the certificate that a changed verdict belongs to. The index says which one it is; if the index isn't exact,
//! all certificates are searched and the log of changes restarts. `Keyring::set_verdict` and `clear_verdict` use
//! it.
ghost use Rattle.std.specs.Prelude.{◌≡◌, ◌≤◌};
ghost use Rattle.wot_index.specs.Index.{IsIndexOf, RestampsAt, stands_at};
ghost use Rattle.wot_keyring_spec.specs.Kept.{AreSortedByFpr};
ghost use Rattle.wot_index.specs.Log.{LogsAt};
ghost use Rattle.wot_keyring_spec.specs.Verdict.{is_among, is_on, has_number, restamped, restamped_all};

use crate::index::Index;
use crate::log::{Log, begin_anew, log_at};
use std::alloc::Global;
use std::cmp::Ordering;
use std::collections::BTreeMap;
use wot_cert::{Cert, Part, Sig};
use wot_keyring_spec::Kept;
use wot_types::{Fpr, SigNumber, compare_numbers};

fn has_sig(sigs: &[Sig], number: &SigNumber) -> bool
    ensures has { result ≡ is_among number.now sigs.now }
{
    let mut left = sigs;
    'sigs: while let Some((sig, rest)) = left.split_first() {
        if compare_numbers(number, &sig.number()) == Ordering::Equal {
            return true;
        }
        left = rest;
    }
    false
}

fn has_sig_on(parts: &[Part], number: &SigNumber) -> bool
    ensures has { result ≡ is_on number.now parts.now }
{
    let mut left = parts;
    'parts: while let Some((part, rest)) = left.split_first() {
        if has_sig(part.sigs(), number) {
            return true;
        }
        left = rest;
    }
    false
}

/// Whether the certificate has a signature of this number.
fn stands_on(cert: &Cert, number: &SigNumber) -> bool
    ensures has { result ≡ has_number number.now cert.now }
{
    if has_sig(cert.direct(), number) {
        return true;
    }
    if has_sig_on(cert.user_ids(), number) {
        return true;
    }
    if has_sig_on(cert.attributes(), number) {
        return true;
    }
    has_sig_on(cert.subkeys(), number)
}

fn restamp_one(kept: &mut Kept, number: &SigNumber, stamp: u64)
    ensures restamped { kept.new ≡ restamped number.now stamp kept.old }
{
    if stands_on(&kept.cert, number) {
        kept.stamp = stamp;
    }
}

/// Stamps each certificate that has a signature of this number.
pub fn restamp(certs: &mut BTreeMap<Fpr, Kept, Global>, number: &SigNumber, stamp: u64)
    ensures restamped { certs.new.entries ≡ restamped_all number.now stamp certs.old.entries }
{
    certs.retain(|_, kept| {
        restamp_one(kept, number, stamp);
        true
    });
}

/// Stamps the certificate of a fingerprint.
fn restamp_at(certs: &mut BTreeMap<Fpr, Kept, Global>, fpr: &Fpr, stamp: u64)
    ensures restamped { RestampsAt fpr.now stamp certs.old.entries certs.new.entries }
{
    if let Some(kept) = certs.get_mut(fpr) {
        kept.stamp = stamp;
    }
}

/// Does what `restamp` does, but looks only at the certificate that the index names. Logs what it stamped.
pub fn restamp_noted(
    certs: &mut BTreeMap<Fpr, Kept, Global>,
    index: &Index,
    log: &mut Log,
    number: &SigNumber,
    stamp: u64,
)
    requires sorted { AreSortedByFpr certs.old.entries }
    requires indexed { IsIndexOf index.now certs.old.entries }
    requires from { log.old.from ≤ stamp }
    ensures restamped { certs.new.entries ≡ restamped_all number.now stamp certs.old.entries }
    ensures logged { LogsAt stamp (stands_at certs.old.entries number.now) log.old log.new }
{
    if !index.exact {
        begin_anew(log, stamp);
        return restamp(certs, number, stamp);
    }
    let Some(fpr) = index.verdicts.holder(number) else {
        return;
    };
    log_at(log, stamp, fpr);
    restamp_at(certs, &fpr, stamp);
}
