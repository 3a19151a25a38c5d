//! Two tests of a single signature: whether it is valid, and whether it names another issuer. `words` uses them.
ghost use Rattle.std.specs.Prelude.{◌≡◌, not};
ghost use Rattle.wot_cert.specs.Issuer.{allows};
ghost use Rattle.wot_component.specs.Judged.{is_sound as is_sound_spec};
ghost use Rattle.wot_explain.specs.Reasons.{names_other as names_other_spec};

use std::cmp::Ordering;
use wot_cert::Sig;
use wot_types::{Fpr, compare_fprs};

pub(crate) fn is_sound(sig: &Sig) -> bool
    ensures { result ≡ is_sound_spec sig.now }
{
    match sig.facts() {
        Some(facts) => facts.sound,
        None => false,
    }
}

fn differs(named: Option<Fpr>, issuer: &Fpr) -> bool
    ensures { result ≡ not (allows named issuer.now) }
{
    match named {
        Some(named) => compare_fprs(&named, issuer) != Ordering::Equal,
        None => false,
    }
}

/// Whether it names another issuer in its hashed area.
pub(crate) fn names_other(sig: &Sig, issuer: &Fpr) -> bool
    ensures { result ≡ names_other_spec sig.now issuer.now }
{
    match sig.facts() {
        Some(facts) => differs(facts.issuer, issuer),
        None => false,
    }
}
