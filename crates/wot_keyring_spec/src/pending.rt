//! The well-formed signatures without a verdict: what an outside verifier has to check. It walks over all certificates,
//! and uses what wot_signature reads from a signature. A change of `Pending` reaches the reply to `pending` in
//! wot_machine, and the verifier.
ghost use Rattle.std.specs.Prelude.{◌≡◌, ◌++◌, ◌∷◌, [], IfOk, OnOk};
ghost use Rattle.std.specs.List.{flat_map};
ghost use Rattle.wot_component.specs.Counts.{sigs_on};
ghost use Rattle.wot_keyring_spec.specs.Keyring.{stripped};
ghost use Rattle.wot_keyring_spec.specs.Pending.{is_pending, pending_among, pending_entry, pending_on};

use crate::kept::Kept;
use std::alloc::Global;
use std::collections::BTreeMap;
use wot_cert::{Cert, Part, Sig};
use wot_signature::hint;
use wot_types::{Fpr, Memory, SigNumber};
use wot_verdict::Verdicts;

/// A well-formed signature without a verdict, with what a verifier needs to find the key that made it.
#[derive(Clone, Copy, Debug, PartialEq, Eq)]
pub struct Pending {
    /// The signature number that waits for a verdict.
    pub number: SigNumber,
    /// The certificate that it is on.
    pub fpr: Fpr,
    /// The fingerprint of the key that made it, if the hashed area has it.
    pub issuer: Option<Fpr>,
    /// The ID of the key that made it, if either area hints at one.
    pub hint: Option<[u8; 8]>,
}

/// Whether a signature is well-formed and has no verdict.
fn waits(sig: &Sig, verdicts: &Verdicts) -> bool
    ensures { result ≡ is_pending verdicts.now.entries sig.now }
{
    let Some(facts) = sig.facts() else {
        return false;
    };
    facts.sound && verdicts.get(&sig.number()).is_none()
}

/// The entry of a signature on the certificate of this fingerprint.
fn pending_from(sig: &Sig, fpr: Fpr) -> Pending
    ensures { result ≡ pending_entry fpr sig.now }
{
    let issuer = match sig.facts() {
        Some(facts) => facts.issuer,
        None => None,
    };
    Pending {
        number: sig.number(),
        fpr,
        issuer,
        hint: hint(sig.body()),
    }
}

/// Appends the entry of a signature on the certificate of this fingerprint, if it has no verdict.
fn push_sig(out: &mut Vec<Pending>, sig: &Sig, fpr: Fpr, verdicts: &Verdicts) -> Result<(), Memory>
    ensures { OnOk result (out.new.items ≡ out.old.items ++ pending_among verdicts.now.entries fpr (sig.now ∷ [])) }
{
    if waits(sig, verdicts) {
        out.push(pending_from(sig, fpr))?;
    }
    Ok(())
}

fn push_sigs(
    out: &mut Vec<Pending>,
    sigs: &[Sig],
    fpr: Fpr,
    verdicts: &Verdicts,
) -> Result<(), Memory>
    ensures { OnOk result (out.new.items ≡ out.old.items ++ pending_among verdicts.now.entries fpr sigs.now) }
{
    let mut left = sigs;
    'sigs: while let Some((sig, rest)) = left.split_first() {
        push_sig(out, sig, fpr, verdicts)?;
        left = rest;
    }
    Ok(())
}

fn push_parts(
    out: &mut Vec<Pending>,
    parts: &[Part],
    fpr: Fpr,
    verdicts: &Verdicts,
) -> Result<(), Memory>
    ensures { OnOk result
        (out.new.items ≡ out.old.items ++ pending_among verdicts.now.entries fpr (sigs_on parts.now)) }
{
    let mut left = parts;
    'parts: while let Some((part, rest)) = left.split_first() {
        push_sigs(out, part.sigs(), fpr, verdicts)?;
        left = rest;
    }
    Ok(())
}

fn push_cert(
    out: &mut Vec<Pending>,
    cert: &Cert,
    fpr: Fpr,
    verdicts: &Verdicts,
) -> Result<(), Memory>
    ensures { OnOk result (out.new.items ≡ out.old.items ++ pending_on verdicts.now.entries (fpr, cert.now)) }
{
    push_sigs(out, cert.direct(), fpr, verdicts)?;
    push_parts(out, cert.user_ids(), fpr, verdicts)?;
    push_parts(out, cert.attributes(), fpr, verdicts)?;
    push_parts(out, cert.subkeys(), fpr, verdicts)
}

/// The signatures of these certificates that have no verdict.
pub fn waiting(
    alloc: Global,
    certs: &BTreeMap<Fpr, Kept, Global>,
    verdicts: &Verdicts,
) -> Result<Vec<Pending>, Memory>
    ensures { IfOk result
        (λ list. list.items ≡ flat_map (pending_on verdicts.now.entries) (stripped certs.now.entries)) }
{
    let mut list = Vec::new(alloc);
    'certs: for (fpr, kept) in certs.iter() {
        push_cert(&mut list, &kept.cert, *fpr, verdicts)?;
    }
    Ok(list)
}
