//! What one signature is: its type, when it was created, whether it is live, whose it is, and whether it revokes.
//!
//! It uses the facts of `wot_signature` and `specs/Kinds.antt`. Everything else in this crate asks it.
ghost use Rattle.std.specs.Prelude.{◌≡◌, ◌==◌, ◌&&◌, false};
ghost use Rattle.std.specs.Option.{option_map_or};
ghost use Rattle.wot_signature.specs.declared.facts.SigFacts.{SigFacts};
ghost use Rattle.wot_kept_signature.specs.SingleFacts.{times_in};
ghost use Rattle.wot_component.specs.Certificate.{said_by};
ghost use Rattle.wot_cert.specs.Issuer.{allows, counts_by};
ghost use Rattle.wot_cert.specs.Revoked.{has_kind as has_kind_spec, is_revocable as is_revocable_spec, revokes_by};
ghost use Rattle.wot_cert.specs.Time.{made_of, facts_live, is_live as is_live_spec};
ghost use Rattle.wot_standing.specs.Kinds.{is_binding as is_binding_spec, is_certification as is_certification_spec};
ghost use Rattle.wot_standing.specs.Kinds.{is_soft as is_soft_spec};
ghost use Rattle.wot_standing.specs.Kinds.{is_soft_reason as is_soft_reason_spec, is_primary as is_primary_spec};

use std::cmp::Ordering;
use wot_cert::{Sig, Times, issuer_of};
use wot_types::{Fpr, compare_fprs};
use wot_verdict::Verdicts;

// Signature types (RFC 9580, section 5.2.1).
const DIRECT_KEY: u8 = 0x1f;

pub(crate) const KEY_REVOCATION: u8 = 0x20;

pub(crate) const CERTIFICATION_REVOCATION: u8 = 0x30;

/// What a self-signature binds: the key itself, or a user ID.
#[derive(Clone, Copy)]
pub(crate) enum Binding {
    DirectKey,
    Certification,
}

pub(crate) fn has_kind(sig: &Sig, kind: u8) -> bool
    ensures { result ≡ has_kind_spec kind sig.now }
{
    match sig.kind() {
        Some(there) => there == kind,
        None => false,
    }
}

/// Whether it is a certification, of any of the four types.
pub fn is_certification(sig: &Sig) -> bool
    ensures { result ≡ is_certification_spec sig.now }
{
    match sig.kind() {
        Some(kind) => 0x10 <= kind && kind <= 0x13,
        None => false,
    }
}

pub(crate) fn is_binding(sig: &Sig, binding: Binding) -> bool
    ensures { result ≡ is_binding_spec binding sig.now }
{
    match binding {
        Binding::DirectKey => has_kind(sig, DIRECT_KEY),
        Binding::Certification => is_certification(sig),
    }
}

fn is_soft_reason(reason: Option<u8>) -> bool
    ensures { result ≡ is_soft_reason_spec reason }
{
    match reason {
        Some(code) => code == 1 || code == 3 || code == 32,
        None => false,
    }
}

pub(crate) fn is_soft(sig: &Sig) -> bool
    ensures { result ≡ is_soft_spec sig.now }
{
    match sig.facts() {
        Some(facts) => is_soft_reason(facts.reason),
        None => false,
    }
}

pub(crate) fn is_primary(sig: &Sig) -> bool
    ensures { result ≡ is_primary_spec sig.now }
{
    match sig.facts() {
        Some(facts) => facts.primary,
        None => false,
    }
}

/// Whether it can be revoked.
pub fn is_revocable(sig: &Sig) -> bool
    ensures { result ≡ is_revocable_spec sig.now }
{
    match sig.facts() {
        Some(facts) => facts.revocable,
        None => false,
    }
}

/// When it was created, in seconds since 1970; 0 if it can't be parsed.
pub fn made(sig: &Sig) -> u32
    ensures { result ≡ made_of sig.now }
{
    match sig.times() {
        Some(times) => times.made,
        None => 0,
    }
}

fn are_live(times: Times, t: u32) -> bool
    ensures { (facts : SigFacts) → times_in facts ≡ times → result ≡ facts_live t facts }
{
    times.made <= t && (times.lasts == 0 || (t as u64) < times.made as u64 + times.lasts as u64)
}

/// Whether it is live at `t`.
pub fn is_live(sig: &Sig, t: u32) -> bool
    ensures { result ≡ is_live_spec t sig.now }
{
    match sig.times() {
        Some(times) => are_live(times, t),
        None => false,
    }
}

/// Whether it names this key as its issuer, or none.
fn may_be_by(sig: &Sig, fpr: &Fpr) -> bool
    ensures { result ≡ option_map_or (λ f. allows f.issuer fpr.now) (said_by sig.now) false }
{
    match sig.issuer() {
        Some(issuer) => match issuer {
            Some(issuer) => compare_fprs(&issuer, fpr) == Ordering::Equal,
            None => true,
        },
        None => false,
    }
}

/// Whether it counts as a signature by this key. Most that don't name another key, and need no look at the verdicts.
pub(crate) fn counts(sig: &Sig, verdicts: &Verdicts, fpr: &Fpr) -> bool
    ensures { result ≡ counts_by verdicts.now.entries fpr.now sig.now }
{
    if !may_be_by(sig, fpr) {
        return false;
    }
    match issuer_of(sig, verdicts) {
        Some(issuer) => compare_fprs(fpr, &issuer) == Ordering::Equal,
        None => false,
    }
}

/// Whether it is a live revocation of certifications by this key.
pub fn revokes(sig: &Sig, verdicts: &Verdicts, fpr: &Fpr, t: u32) -> bool
    ensures { result ≡ revokes_by verdicts.now.entries fpr.now t sig.now }
{
    has_kind(sig, CERTIFICATION_REVOCATION) && is_live(sig, t) && counts(sig, verdicts, fpr)
}
