//! Which of several valid signatures is the newest, and which self-certification is primary.
//!
//! It uses `kinds` and `latest`, and `specs/Valid.antt` and `specs/Standing.antt`. `governing` and `certifiers`
//! decide by it.
ghost use Rattle.std.specs.Prelude.{◌≡◌, ◌&&◌, filter, Some, if◌then◌else◌};
ghost use Rattle.std.specs.Option.{option_copied};
ghost use Rattle.wot_component.specs.Ranked.{greatest, higher as higher_spec, higher_of};
ghost use Rattle.wot_cert.specs.Time.{newness, is_live as is_live_spec};
ghost use Rattle.wot_standing.specs.Kinds.{is_binding as is_binding_spec};
ghost use Rattle.wot_standing.specs.Latest.{is_valid_after as is_valid_after_spec, stays as stays_spec};
ghost use Rattle.wot_standing.specs.Standing.{primacy, primary_among};
ghost use Rattle.wot_standing.specs.Valid.{newest_valid as newest_valid_spec};

use crate::kinds::{Binding, counts, is_binding, is_live, is_primary, is_revocable, made};
use crate::latest::{latest_revocation, outlives};
use std::cmp::Ordering;
use wot_cert::{Part, Sig};
use wot_types::{Fpr, compare_numbers};
use wot_verdict::Verdicts;

/// Compares by creation time, then by number, then by body.
fn compare_newness(a: &Sig, b: &Sig) -> Ordering
    ensures { result ≡ newness a.now b.now }
{
    match made(a).cmp(&made(b)) {
        Ordering::Equal => match compare_numbers(&a.number(), &b.number()) {
            Ordering::Equal => a.body().cmp(b.body()),
            other => other,
        },
        other => other,
    }
}

/// Compares by the primary mark, then by newness.
fn compare_primacy(a: &Sig, b: &Sig) -> Ordering
    ensures { result ≡ primacy a.now b.now }
{
    match is_primary(a).cmp(&is_primary(b)) {
        Ordering::Equal => compare_newness(a, b),
        other => other,
    }
}

/// The greater of two signatures.
fn higher<'a>(order: Ordering, a: &'a Sig, b: &'a Sig) -> &'a Sig
    ensures { result.now ≡ higher_spec order a.now b.now }
{
    match order {
        Ordering::Less => b,
        Ordering::Equal => a,
        Ordering::Greater => a,
    }
}

/// Whether a signature is newer than the other one, if there is one.
pub(crate) fn is_newest(sig: &Sig, other: Option<&Sig>) -> bool
    ensures { higher_of newness sig.now (option_copied other.entry)
        ≡ (if result then Some sig.now else option_copied other.entry) }
{
    match other {
        Some(other) => compare_newness(sig, other) != Ordering::Less,
        None => true,
    }
}

/// Whether it is valid if it counts as the issuer's.
fn may_be_valid(sig: &Sig, t: u32, binding: Binding, revoked: Option<u32>) -> bool
    ensures { result ≡ (is_binding_spec binding sig.now && (is_live_spec t sig.now && stays_spec revoked sig.now)) }
{
    is_binding(sig, binding) && is_live(sig, t) && stays(sig, revoked)
}

/// Whether it isn't revoked, given when the latest revocation was created.
pub(crate) fn stays(sig: &Sig, revoked: Option<u32>) -> bool
    ensures { result ≡ stays_spec revoked sig.now }
{
    revoked.is_none() || !is_revocable(sig) || outlives(revoked, made(sig))
}

/// The newest of the valid signatures, given when the latest revocation was created. Only a signature that would be the
/// newest so far needs a look at the verdicts.
fn newest_after<'a>(
    sigs: &'a [Sig],
    verdicts: &Verdicts,
    fpr: &Fpr,
    t: u32,
    binding: Binding,
    revoked: Option<u32>,
) -> Option<&'a Sig>
    ensures { option_copied result ≡ greatest newness
        (filter (is_valid_after_spec verdicts.now.entries fpr.now t binding revoked) sigs.now) }
{
    let mut best: Option<&'a Sig> = None;
    let mut rest = sigs;
    'back: while let Some((sig, prefix)) = rest.split_last() {
        rest = prefix;
        if may_be_valid(sig, t, binding, revoked)
            && is_newest(sig, best)
            && counts(sig, verdicts, fpr)
        {
            best = Some(sig);
        }
    }
    best
}

/// The newest valid signature among these.
pub(crate) fn newest_valid<'a>(
    sigs: &'a [Sig],
    verdicts: &Verdicts,
    fpr: &Fpr,
    t: u32,
    binding: Binding,
) -> Option<&'a Sig>
    ensures { option_copied result ≡ newest_valid_spec verdicts.now.entries fpr.now t binding sigs.now }
{
    let revoked = latest_revocation(sigs, verdicts, fpr, t);
    newest_after(sigs, verdicts, fpr, t, binding, revoked)
}

/// The greater of a signature and the best so far, if there is one, by the primary mark and then by newness.
pub fn more_primary<'a>(sig: &'a Sig, best: Option<&'a Sig>) -> Option<&'a Sig>
    ensures greater { option_copied result ≡ higher_of primacy sig.now (option_copied best.entry) }
{
    match best {
        Some(other) => Some(higher(compare_primacy(sig, other), sig, other)),
        None => Some(sig),
    }
}

/// The greatest of all user IDs' newest self-certifications, by the primary mark and then by newness.
pub(crate) fn primary<'a>(
    user_ids: &'a [Part],
    verdicts: &Verdicts,
    fpr: &Fpr,
    t: u32,
) -> Option<&'a Sig>
    ensures { option_copied result ≡ primary_among verdicts.now.entries fpr.now t user_ids.now }
{
    let mut best: Option<&'a Sig> = None;
    let mut rest = user_ids;
    'back: while let Some((uid, prefix)) = rest.split_last() {
        rest = prefix;
        if let Some(sig) = newest_valid(uid.sigs(), verdicts, fpr, t, Binding::Certification) {
            best = more_primary(sig, best);
        }
    }
    best
}
