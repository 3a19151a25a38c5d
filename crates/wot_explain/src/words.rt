//! Why a certification isn't a usable edge: the first of fifteen reasons, in the order of specs/Reasons.antt. A new
//! reason is a row there, a test here, and a word in wot_reply_lines.
ghost use Rattle.std.specs.Prelude.{◌≡◌, not};
ghost use Rattle.std.specs.Ordering.{is_eq};
ghost use Rattle.wot_component.specs.Certificate.{sig_cmp};
ghost use Rattle.wot_explain.specs.Reasons.{counted_words, good_words, issuer_words, standing_by as standing_by_spec};
ghost use Rattle.wot_explain.specs.Reasons.{word_of};
ghost use Rattle.wot_explain.specs.Words.{first_word, is_so};
ghost use Rattle.wot_keyring_spec.specs.Keyring.{certificates_in};
ghost use Rattle.wot_standing.specs.Certifiers.{KeepsNewest, kept_for, place_for};
ghost use Rattle.wot_standing.specs.Standing.{standing_of};

use crate::moments::{ends_after, is_after};
use crate::revoked::is_unrevoked;
use crate::signature::{is_sound, names_other};
use std::cmp::Ordering;
use wot_cert::{Cert, Part, Sig};
use wot_keyring::Keyring;
use wot_standing::kinds::{is_live, made};
use wot_standing::{Certifiers, Standing, standing};
use wot_types::Fpr;
use wot_verdict::{Verdict, Verdicts};

/// A certification on a user ID, and what its reason depends on: the keyring, the time, and each issuer's newest
/// certification there, kept for the user ID at place 0 whatever its place is.
#[derive(Clone, Copy)]
pub(crate) struct Certification<'a> {
    pub(crate) sig: &'a Sig,
    pub(crate) uid: &'a Part,
    pub(crate) keyring: &'a Keyring,
    pub(crate) t: u32,
    pub(crate) certifiers: &'a Certifiers,
}

fn standing_at(cert: &Cert, verdicts: &Verdicts, t: u32) -> Standing
    ensures { result ≡ standing_of verdicts.now.entries cert.now t }
{
    standing(cert, verdicts, t).0
}

/// The standing of a key at `t`, if it is kept.
fn standing_by(keyring: &Keyring, fpr: &Fpr, t: u32) -> Option<Standing>
    ensures { result ≡ standing_by_spec keyring.now.verdicts (certificates_in keyring.now) t fpr.now }
{
    match keyring.get(fpr) {
        Some(cert) => Some(standing_at(cert, keyring.verdicts(), t)),
        None => None,
    }
}

/// Why the standing of its issuer makes an edge that was created then unusable.
fn issuer_word(made: u32, issuer: Option<Standing>) -> u8
    ensures { result ≡ first_word (issuer_words made issuer) }
{
    let Some(issuer) = issuer else { return 10 };
    if !issuer.has {
        return 11;
    }
    if made < issuer.created {
        return 12;
    }
    if !ends_after(made, issuer.end) {
        return 13;
    }
    if issuer.hard {
        return 14;
    }
    if is_after(made, issuer.soft) { 0 } else { 15 }
}

/// Whether an issuer's newest certification on a user ID is a different one.
fn is_older(sig: &Sig, uid: &Part, certifiers: &Certifiers, issuer: &Fpr) -> bool
    ensures { result ≡ not (is_so (λ newest. is_eq (sig_cmp sig.now newest))
        (kept_for (place_for certifiers.now 0) uid.now.sigs issuer.now)) }
{
    let Some(place) = certifiers.place(0, issuer) else {
        return true;
    };
    match uid.sigs().get(place as usize) {
        Some(newest) => sig.body().cmp(newest.body()) != Ordering::Equal,
        None => true,
    }
}

/// The word of a certification that counts for its issuer.
fn counting_word(on: &Certification<'_>, issuer: &Fpr) -> u8
    requires newest { KeepsNewest on.now.keyring.now.verdicts on.now.t on.now.uid.now
        (place_for on.now.certifiers.now 0) }
    ensures { result ≡ first_word (counted_words on.now.keyring.now on.now.t on.now.uid.now on.now.sig.now issuer.now) }
{
    let Certification {
        sig,
        uid,
        keyring,
        t,
        certifiers,
    } = *on;
    if t < made(sig) {
        return 6;
    }
    if !is_live(sig, t) {
        return 7;
    }
    if !is_unrevoked(sig, uid.sigs(), keyring.verdicts(), issuer, t) {
        return 8;
    }
    if is_older(sig, uid, certifiers, issuer) {
        return 9;
    }
    issuer_word(made(sig), standing_by(keyring, issuer, t))
}

/// The word of a valid certification whose verdict is good by this issuer.
fn good_word(on: &Certification<'_>, issuer: &Fpr) -> u8
    requires newest { KeepsNewest on.now.keyring.now.verdicts on.now.t on.now.uid.now
        (place_for on.now.certifiers.now 0) }
    ensures { result ≡ first_word (good_words on.now.keyring.now on.now.t on.now.uid.now on.now.sig.now issuer.now) }
{
    if names_other(on.sig, issuer) {
        return 4;
    }
    if !on.sig.admitted() {
        return 5;
    }
    counting_word(on, issuer)
}

/// The number of the word of a certification on a user ID: the first reason why it isn't a usable edge, or 0 if it is
/// one.
pub(crate) fn reason_word(on: &Certification<'_>) -> u8
    requires newest { KeepsNewest on.now.keyring.now.verdicts on.now.t on.now.uid.now
        (place_for on.now.certifiers.now 0) }
    ensures word { result ≡ word_of on.now }
{
    if !is_sound(on.sig) {
        return 1;
    }
    match on.keyring.verdicts().get(&on.sig.number()) {
        None => 2,
        Some(Verdict::Bad) => 3,
        Some(Verdict::Good(issuer)) => good_word(on, &issuer),
    }
}
