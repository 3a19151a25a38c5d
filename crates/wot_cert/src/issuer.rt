//! Whose a signature is, and whether it counts.
//!
//! It uses `sig` and the verdicts, and `specs/Issuer.antt`. Every rule about certifications, revocations and
//! self-signatures above starts with it.
ghost use Rattle.std.specs.Prelude.{◌≡◌, true, false};
ghost use Rattle.std.specs.Option.{option_map_or};
ghost use Rattle.wot_component.specs.Certificate.{said_by};
ghost use Rattle.wot_cert.specs.Issuer.{issuer_of as issuer_in, may_count as may_count_in};
ghost use Rattle.wot_cert.specs.Issuer.{allows, good_by, issuer_with};

use crate::Sig;
use std::cmp::Ordering;
use wot_types::{Fpr, compare_fprs};
use wot_verdict::{Verdict, Verdicts};

/// Whether this key may be the issuer: no other one is named.
fn allowed(issuer: &Option<Fpr>, fpr: &Fpr) -> bool
    ensures { result ≡ allows issuer.now fpr.now }
{
    match issuer {
        None => true,
        Some(issuer) => compare_fprs(issuer, fpr) == Ordering::Equal,
    }
}

/// Whether this key may be its issuer.
fn may_be_by(sig: &Sig, fpr: &Fpr) -> bool
    ensures { result ≡ option_map_or (λ f. allows f.issuer fpr.now) (said_by sig.now) false }
{
    match sig.issuer() {
        Some(issuer) => allowed(&issuer, fpr),
        None => false,
    }
}

/// Whether it can be a signature that counts: it can be parsed, is well-formed, and the policy admitted it.
fn may_count(sig: &Sig) -> bool
    ensures { result ≡ may_count_in sig.now }
{
    sig.is_sound() && sig.admitted()
}

/// The key whose signature this counts as if it may count and this is its verdict.
fn issuer_by(sig: &Sig, verdict: Option<Verdict>) -> Option<Fpr>
    requires may { may_count_in sig.now ≡ true }
    ensures issuer { result ≡ issuer_with (said_by sig.now) sig.now.admitted (good_by verdict) }
{
    let Some(Verdict::Good(fpr)) = verdict else {
        return None;
    };
    if may_be_by(sig, &fpr) {
        Some(fpr)
    } else {
        None
    }
}

/// The key whose signature this counts as: the signature can be parsed, is well-formed and admitted by the policy, its
/// verdict is good with that key, and its hashed issuer fingerprint is absent or that key's.
pub fn issuer_of(sig: &Sig, verdicts: &Verdicts) -> Option<Fpr>
    ensures issuer { result ≡ issuer_in verdicts.now.entries sig.now }
{
    if !may_count(sig) {
        return None;
    }
    issuer_by(sig, verdicts.get(&sig.number()))
}

/// The key whose signature this counts as, and where to look first for the verdict on the next signature. It looks at
/// `from` first, and passes over one place for what can't count. Any place gives the same key; begin with 0.
pub fn issuer_from(sig: &Sig, verdicts: &Verdicts, from: usize) -> (Option<Fpr>, usize)
    ensures issuer { result.0 ≡ issuer_in verdicts.now.entries sig.now }
{
    if !may_count(sig) {
        return (None, from.saturating_add(1));
    }
    let (verdict, next) = verdicts.get_from(&sig.number(), from);
    (issuer_by(sig, verdict), next)
}
