//! The reasons of the certifications on one user ID: for each its number, its word from `words`, and its step if it is
//! a usable edge. Each issuer's newest certification is found once for all of them.
ghost use Rattle.std.specs.Prelude.{◌≡◌, ℕ, List, IfOk};
ghost use Rattle.std.specs.Option.{option_map};
ghost use Rattle.wot_component.specs.Certificate.{Signature};
ghost use Rattle.wot_edge.specs.Path.{step_of as step_of_spec};
ghost use Rattle.wot_live.specs.Edge.{edge_by, edge_facts};
ghost use Rattle.wot_explain.specs.Explaining.{reasons_on};
ghost use Rattle.wot_explain.specs.Reasons.{reason_with, step_by, verdict_reason};
ghost use Rattle.wot_keyring_spec.specs.Keyring.{certificates_in};
ghost use Rattle.wot_live.specs.Found.{HasFew};
ghost use Rattle.wot_standing.specs.Certifiers.{KeepsNewest, place_for};

use crate::words::{Certification, reason_word};
use crate::{Reason, ReasonList};
use std::alloc::Global;
use std::cmp::Ordering;
use wot_cert::{Part, Sig};
use wot_edge::Step;
use wot_keyring::Keyring;
use wot_signature::SigFacts;
use wot_standing::Certifiers;
use wot_standing::kinds::is_certification;
use wot_types::{Fpr, Memory, compare_fprs};
use wot_verdict::{Verdict, Verdicts};

/// The step of an edge by this issuer, from what its certification says.
fn step_said(issuer: Fpr, target: Fpr, place: u32, said: SigFacts) -> Step
    ensures { (sig : ℕ) → result ≡ step_of_spec (edge_facts issuer target place sig said) }
{
    let own = compare_fprs(&issuer, &target) == Ordering::Equal;
    Step {
        issuer,
        target,
        uid: place,
        depth: if own { 0 } else { said.depth },
        amount: if own { 120 } else { said.amount },
    }
}

/// The step of the edge that a certification by this issuer makes.
fn step_of(sig: &Sig, issuer: Fpr, target: Fpr, place: u32) -> Option<Step>
    ensures { (sigs : List Signature) → result ≡ option_map step_of_spec (edge_by issuer target place sigs sig.now) }
{
    match sig.facts() {
        Some(said) => Some(step_said(issuer, target, place, said)),
        None => None,
    }
}

/// The step of the edge that a certification makes, by the verdict on it.
fn step(sig: &Sig, uid: &Part, verdicts: &Verdicts, target: Fpr, place: u32) -> Option<Step>
    ensures { result ≡ step_by verdicts.now.entries target place uid.now sig.now }
{
    match verdicts.get(&sig.number()) {
        Some(Verdict::Good(issuer)) => step_of(sig, issuer, target, place),
        Some(Verdict::Bad) => None,
        None => None,
    }
}

fn reason_told(sig: &Sig, word: u8, step: Option<Step>) -> Reason
    ensures { result ≡ reason_with sig.now word step }
{
    let number = sig.number();
    if word == 0 {
        (number, word, step)
    } else {
        (number, word, None)
    }
}

fn reason(on: &Certification<'_>, target: Fpr, place: u32) -> Reason
    requires newest { KeepsNewest on.now.keyring.now.verdicts on.now.t on.now.uid.now
        (place_for on.now.certifiers.now 0) }
    ensures { result ≡ verdict_reason on.now target place }
{
    let word = reason_word(on);
    let step = step(on.sig, on.uid, on.keyring.verdicts(), target, place);
    reason_told(on.sig, word, step)
}

/// The reasons of the certifications on the user ID at this place.
pub(crate) fn reasons(
    alloc: Global,
    uid: &Part,
    keyring: &Keyring,
    t: u32,
    target: Fpr,
    place: u32,
) -> Result<ReasonList, Memory>
    requires few { HasFew uid.now }
    ensures reasons { IfOk result (λ list. list
        ≡ reasons_on keyring.now.verdicts (certificates_in keyring.now) t target place uid.now) }
{
    let mut certifiers = Certifiers::new(alloc);
    certifiers.add(alloc, 0, uid, keyring.verdicts(), t, 0)?;
    let mut items = Vec::new(alloc);
    let mut rest = uid.sigs();
    'rest: while let Some((sig, others)) = rest.split_first() {
        if is_certification(sig) {
            let on = Certification {
                sig,
                uid,
                keyring,
                t,
                certifiers: &certifiers,
            };
            items.push(reason(&on, target, place))?;
        }
        rest = others;
    }
    Ok(ReasonList::new(items))
}
