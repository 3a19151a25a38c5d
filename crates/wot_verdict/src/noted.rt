//! What is noted for one signature number: the verdict on the signature, and on which certificate of version 4 it is.
//!
//! One row of slots keeps both, so that the number's 32 octets are kept once. `keeping` changes the rows, and
//! `verdicts` keeps the fingerprints of version 6.
ghost use Rattle.std.specs.Prelude.{◌≡◌, is_some, true};
ghost use Rattle.std.specs.Option.{IfSome};
ghost use Rattle.wot_verdict.specs.Kept.{full, short_in, verdict_in};

use crate::Verdict;
use wot_types::Fpr;

/// A fingerprint of version 4.
#[derive(Clone, Copy)]
pub struct Short(pub [u8; 20]);

/// What is noted for a number. A number for which nothing is noted has no slot.
#[derive(Clone, Copy)]
pub enum Noted {
    /// The signature is on this certificate, and has no verdict.
    Held(Short),
    /// There is a verdict, and no certificate of version 4 with the signature.
    Judged(Verdict),
    Both(Verdict, Short),
}

/// The verdict, if there is one.
pub(crate) fn verdict_of(noted: Option<Noted>) -> Option<Verdict>
    ensures verdict { result ≡ verdict_in noted }
{
    match noted {
        Some(Noted::Judged(verdict)) => Some(verdict),
        Some(Noted::Both(verdict, _)) => Some(verdict),
        Some(Noted::Held(_)) => None,
        None => None,
    }
}

/// The certificate of version 4, if there is one.
pub(crate) fn holder_of(noted: Option<Noted>) -> Option<Short>
    ensures holder { result ≡ short_in noted }
{
    match noted {
        Some(Noted::Held(short)) => Some(short),
        Some(Noted::Both(_, short)) => Some(short),
        Some(Noted::Judged(_)) => None,
        None => None,
    }
}

/// What is noted once this verdict is set on the number.
pub(crate) fn with_verdict(noted: Option<Noted>, verdict: Verdict) -> Noted
    ensures verdict { verdict_in (Some result) ≡ Some verdict }
    ensures holder { short_in (Some result) ≡ short_in noted }
{
    match holder_of(noted) {
        Some(short) => Noted::Both(verdict, short),
        None => Noted::Judged(verdict),
    }
}

/// What is noted once the number has no verdict.
pub(crate) fn without_verdict(noted: Option<Noted>) -> Option<Noted>
    ensures verdict { verdict_in result ≡ None }
    ensures holder { short_in result ≡ short_in noted }
    ensures less { is_some result ≡ true → is_some noted ≡ true }
{
    match holder_of(noted) {
        Some(short) => Some(Noted::Held(short)),
        None => None,
    }
}

/// What is noted once the signature is on this certificate.
pub(crate) fn with_holder(noted: Option<Noted>, short: Short) -> Noted
    ensures verdict { verdict_in (Some result) ≡ verdict_in noted }
    ensures holder { short_in (Some result) ≡ Some short }
{
    match verdict_of(noted) {
        Some(verdict) => Noted::Both(verdict, short),
        None => Noted::Held(short),
    }
}

/// What is noted once the signature is on no certificate of version 4.
pub(crate) fn without_holder(noted: Option<Noted>) -> Option<Noted>
    ensures verdict { verdict_in result ≡ verdict_in noted }
    ensures holder { short_in result ≡ None }
    ensures less { is_some result ≡ true → is_some noted ≡ true }
{
    match verdict_of(noted) {
        Some(verdict) => Some(Noted::Judged(verdict)),
        None => None,
    }
}

/// The fingerprint of version 4 with these octets.
fn shortened(octets: &[u8; 20]) -> Short
    ensures { result.0 ≡ octets.now }
{
    let octets = *octets;
    Short(octets)
}

/// The fingerprint, if it is of version 4.
pub(crate) fn short_of(fpr: &Fpr) -> Option<Short>
    ensures short { IfSome result (λ short. full short ≡ fpr.now) }
{
    match fpr {
        Fpr::V4(octets) => Some(shortened(octets)),
        Fpr::V6(_) => None,
    }
}

/// The fingerprint as callers know it.
pub(crate) fn full_of(short: Short) -> Fpr
    ensures full { result ≡ full short }
{
    let octets = short.0;
    Fpr::V4(octets)
}
