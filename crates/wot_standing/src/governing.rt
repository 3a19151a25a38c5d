//! `standing`: which signature governs a key at a time, when the key ends, and whether it is revoked.
//!
//! It uses `newest` and `revoked`, and `specs/Standing.antt`. Usable edges and valid targets are decided by the
//! result.
ghost use Rattle.std.specs.Prelude.{◌≡◌};
ghost use Rattle.std.specs.Option.{option_copied};
ghost use Rattle.wot_cert.specs.Span.{span_of, created_of};
ghost use Rattle.wot_standing.specs.Standing.{standing_of, governing as governing_spec, end_by, own, primary_among};
ghost use Rattle.wot_standing.specs.Throughout.{IsThroughout};

use crate::Standing;
use crate::kinds::Binding;
use crate::newest::{newest_valid, primary};
use crate::revoked::{has_hard, soft_moment};
use wot_cert::{Cert, Sig, Span, span};
use wot_verdict::Verdicts;

/// The governing signature: the newest direct key signature, or else the primary self-certification.
fn governing<'a>(cert: &'a Cert, verdicts: &Verdicts, t: u32) -> Option<&'a Sig>
    ensures { option_copied result ≡ governing_spec verdicts.now.entries cert.now t }
{
    let fpr = cert.fpr();
    match newest_valid(cert.direct(), verdicts, &fpr, t, Binding::DirectKey) {
        Some(sig) => Some(sig),
        None => primary(cert.user_ids(), verdicts, &fpr, t),
    }
}

fn end_of(created: u32, by: Option<&Sig>) -> Option<u64>
    ensures { result ≡ end_by created (option_copied by.entry) }
{
    let Some(sig) = by else { return None };
    let Some(facts) = sig.facts() else {
        return None
    };
    if facts.key_lasts == 0 {
        None
    } else {
        Some(created as u64 + facts.key_lasts as u64)
    }
}

fn created(cert: &Cert) -> u32
    ensures { result ≡ created_of cert.now }
{
    cert.key().created
}

/// The standing, given the signature that governs.
fn governed(cert: &Cert, verdicts: &Verdicts, t: u32, by: Option<&Sig>) -> Standing
    requires by { option_copied by ≡ governing_spec verdicts.now.entries cert.now t }
    ensures { result ≡ standing_of verdicts.now.entries cert.now t }
{
    let fpr = cert.fpr();
    let created = created(cert);
    Standing {
        has: by.is_some(),
        created,
        end: end_of(created, by),
        hard: has_hard(cert.direct(), verdicts, &fpr),
        soft: soft_moment(cert.direct(), verdicts, &fpr, t),
    }
}

/// Computes the standing alone, as `standing` does, for a caller that has the span already.
pub fn standing_at(cert: &Cert, verdicts: &Verdicts, t: u32) -> Standing
    ensures standing { result ≡ standing_of verdicts.now.entries cert.now t }
{
    governed(cert, verdicts, t, governing(cert, verdicts, t))
}

/// Computes the standing as `standing_at` does, for a caller that has the primary self-certification already: only the
/// signatures on the key itself are looked at.
pub fn standing_with(cert: &Cert, verdicts: &Verdicts, t: u32, primary: Option<&Sig>) -> Standing
    requires primary { option_copied primary
        ≡ primary_among verdicts.now.entries (own cert.now) t cert.now.user_ids }
    ensures standing { result ≡ standing_of verdicts.now.entries cert.now t }
{
    let fpr = cert.fpr();
    let by = match newest_valid(cert.direct(), verdicts, &fpr, t, Binding::DirectKey) {
        Some(sig) => Some(sig),
        None => primary,
    };
    governed(cert, verdicts, t, by)
}

/// Computes the standing of a certificate at a time, and the span of times throughout which it doesn't change.
///
/// The newest direct key signature by the key itself that is live and unrevoked governs. If there is none, the greatest
/// of all user IDs' newest self-certifications governs, compared by the primary mark and then by newness. A revocation
/// of the key is hard unless it says that the key was superseded or retired or that the user ID isn't valid any more.
pub fn standing(cert: &Cert, verdicts: &Verdicts, t: u32) -> (Standing, Span)
    ensures standing { result.0 ≡ standing_of verdicts.now.entries cert.now t }
    ensures span { result.1 ≡ span_of cert.now t }
    ensures throughout { IsThroughout result.1 (standing_of verdicts.now.entries cert.now) result.0 }
{
    (standing_at(cert, verdicts, t), span(cert, t))
}
