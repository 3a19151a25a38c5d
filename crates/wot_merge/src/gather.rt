//! Merges the certificates of one import that have the same key, before they reach the keyring. A kept certificate is
//! then merged once, however often its key occurs in the input. The list is split in halves, so that each certificate
//! is visited a logarithmic number of times. `Keyring::take` uses this, and the law that the order doesn't
//! matter.
ghost use Rattle.std.specs.Prelude.{◌≡◌, ◌++◌, ◌∷◌, [], None, true, IfOk, IfNone, OnOk};
ghost use Rattle.std.specs.BTreeMap.{insert_entry};
ghost use Rattle.std.specs.List.{AllByRecursion};
ghost use Rattle.std.specs.Map.{lookup, remove_entry, values_of};
ghost use Rattle.wot_types.specs.Fpr.{fpr_cmp};
ghost use Rattle.wot_key.specs.Key.{fpr_of};
ghost use Rattle.wot_component.specs.Whole.{IsCertificate};
ghost use Rattle.wot_merge.specs.Gather.{AreOwn, DoTheSame, IsGathered, TellsClashWith, TellsNothing};
ghost use Rattle.wot_keyring_spec.specs.Keyring.{is_fpr};

use crate::room::only;
use crate::staging::Fault;
use std::alloc::Global;
use std::collections::BTreeMap;
use wot_cert::laws::{judging, united_in_any_order, united_whole};
use wot_cert::{Cert, MergeFault};
use wot_types::{Fpr, Memory};

/// Removes what was gathered under a fingerprint.
fn taken_out(certs: &mut BTreeMap<Fpr, Cert, Global>, fpr: &Fpr) -> Option<Cert>
    ensures was { result ≡ lookup (is_fpr fpr.now) certs.old.entries }
    ensures out { certs.new.entries ≡ remove_entry (is_fpr fpr.now) certs.old.entries }
    ensures gone { lookup (is_fpr fpr.now) certs.new.entries ≡ None }
    ensures same { IfNone result (certs.new.entries ≡ certs.old.entries) }
{
    certs.remove(fpr)
}

/// Adds a certificate under its fingerprint.
fn put(certs: &mut BTreeMap<Fpr, Cert, Global>, cert: Cert) -> Result<(), Memory>
    ensures put { OnOk result (certs.new.entries ≡ insert_entry fpr_cmp certs.old.entries (fpr_of cert.key) cert) }
    ensures whole { IsCertificate cert }
{
    let fpr = cert.fpr();
    match certs.insert(fpr, cert) {
        Ok(_) => Ok(()),
        Err(_) => Err(Memory),
    }
}

/// Merges a certificate with the gathered one of its key, or adds it if there is none.
fn add(alloc: Global, certs: &mut BTreeMap<Fpr, Cert, Global>, cert: Cert) -> Result<(), Fault>
    requires own { AreOwn certs.old.entries }
    ensures own { OnOk result (AreOwn certs.new.entries) }
    ensures gathered { OnOk result (IsGathered certs.old.entries cert certs.new.entries) }
    ensures clash { TellsClashWith result certs.old.entries cert }
{
    judging();
    united_in_any_order();
    united_whole();
    let fpr = cert.fpr();
    let Some(mut there) = taken_out(certs, &fpr) else {
        return match put(certs, cert) {
            Ok(()) => Ok(()),
            Err(Memory) => Err(Fault::Memory),
        };
    };
    match there.unite(alloc, &cert) {
        Ok(()) => match put(certs, there) {
            Ok(()) => Ok(()),
            Err(Memory) => Err(Fault::Memory),
        },
        Err(MergeFault::Clash) => Err(Fault::Clash),
        Err(MergeFault::Memory) => Err(Fault::Memory),
    }
}

/// Merges each of these certificates with the gathered ones.
fn pour(
    alloc: Global,
    certs: &mut BTreeMap<Fpr, Cert, Global>,
    mut from: BTreeMap<Fpr, Cert, Global>,
) -> Result<(), Fault>
    requires own { AreOwn certs.old.entries }
    ensures own { OnOk result (AreOwn certs.new.entries) }
    ensures same { OnOk result (DoTheSame (values_of certs.new.entries)
        (values_of certs.old.entries ++ values_of from.entries)) }
    ensures clash { TellsNothing result (values_of certs.old.entries ++ values_of from.entries) }
{
    'from: while let Some((_, cert)) = from.pop_first() {
        match add(alloc, certs, cert) {
            Ok(()) => {}
            Err(fault) => return Err(fault),
        }
    }
    Ok(())
}

/// A map of one certificate, under its fingerprint.
fn alone(alloc: Global, cert: &Cert) -> Result<BTreeMap<Fpr, Cert, Global>, Fault>
    ensures entry { IfOk result (λ certs. certs.entries ≡ (fpr_of cert.now.key, cert.now) ∷ []) }
    ensures whole { IsCertificate cert.now }
    ensures clash { TellsNothing result (cert.now ∷ []) }
{
    let fpr = cert.fpr();
    let mut certs = BTreeMap::new(alloc);
    let Ok(cert) = cert.duplicate(alloc) else {
        return Err(Fault::Memory);
    };
    match certs.insert(fpr, cert) {
        Ok(_) => Ok(certs),
        Err(_) => Err(Fault::Memory),
    }
}

/// The certificates of a list by fingerprint, merged by key.
fn gather(alloc: Global, list: &[Cert]) -> Result<BTreeMap<Fpr, Cert, Global>, Fault>
    ensures own { IfOk result (λ certs. AreOwn certs.entries) }
    ensures same { IfOk result (λ certs. DoTheSame list.now (values_of certs.entries)) }
    ensures clash { TellsNothing result list.now }
{
    united_whole();
    match list {
        [] => Ok(BTreeMap::new(alloc)),
        [cert] => alone(alloc, cert),
        _ => {
            let (first, second) = list.split_at(list.len() / 2);
            let mut certs = match gather(alloc, first) {
                Ok(certs) => certs,
                Err(fault) => return Err(fault),
            };
            let others = match gather(alloc, second) {
                Ok(others) => others,
                Err(fault) => return Err(fault),
            };
            match pour(alloc, &mut certs, others) {
                Ok(()) => Ok(certs),
                Err(fault) => Err(fault),
            }
        }
    }
}

/// The certificates of a map, in the order of their fingerprints.
fn listed(alloc: Global, mut certs: BTreeMap<Fpr, Cert, Global>) -> Result<Vec<Cert>, Memory>
    ensures listed { IfOk result (λ list. list.items ≡ values_of certs.entries) }
{
    let mut list = Vec::new(alloc);
    'certs: while let Some((_, cert)) = certs.pop_first() {
        if let Err(_) = list.push(cert) {
            return Err(Memory);
        }
    }
    Ok(list)
}

/// Whether a list has exactly one certificate.
fn is_alone(list: &[Cert]) -> bool
    ensures { result ≡ true → AllByRecursion IsCertificate list.now }
{
    match only(list) {
        Some(cert) => {
            // Its contract says that the certificate is whole.
            let _ = cert.fpr();
            true
        }
        None => false,
    }
}

/// Copies of the certificates of a list, those of one key merged.
fn gathered_anew(alloc: Global, list: &[Cert]) -> Result<Vec<Cert>, Fault>
    ensures whole { IfOk result (λ gathered. AllByRecursion IsCertificate gathered.items) }
    ensures same { IfOk result (λ gathered. DoTheSame list.now gathered.items) }
    ensures clash { TellsNothing result list.now }
{
    let certs = match gather(alloc, list) {
        Ok(certs) => certs,
        Err(fault) => return Err(fault),
    };
    match listed(alloc, certs) {
        Ok(list) => Ok(list),
        Err(Memory) => Err(Fault::Memory),
    }
}

/// One certificate for each key of a list: all that the list has of this key, merged. A certificate that is alone is
/// returned as it is: nothing is copied.
pub fn gathered(alloc: Global, list: Vec<Cert>) -> Result<Vec<Cert>, Fault>
    ensures whole { IfOk result (λ gathered. AllByRecursion IsCertificate gathered.items) }
    ensures same { IfOk result (λ gathered. DoTheSame list.items gathered.items) }
    ensures clash { TellsNothing result list.items }
{
    if is_alone(list.as_slice()) {
        return Ok(list);
    }
    gathered_anew(alloc, list.as_slice())
}
