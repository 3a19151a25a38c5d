//! Revocations of a key: hard ones, which count at every time, and the first soft one.
//!
//! It uses `kinds` and `specs/Standing.antt`. `governing` puts the result into the standing.
ghost use Rattle.std.specs.Prelude.{◌≡◌, min};
ghost use Rattle.std.specs.List.{list_any};
ghost use Rattle.std.specs.Option.{option_map_or};
ghost use Rattle.wot_standing.specs.Standing.{revokes_key as revokes_key_spec, is_hard_revocation as is_hard_spec};
ghost use Rattle.wot_standing.specs.Standing.{is_soft_revocation as is_soft_revocation_spec};
ghost use Rattle.wot_standing.specs.Standing.{soft_moment as soft_moment_spec};

use crate::kinds::{KEY_REVOCATION, counts, has_kind, is_live, is_soft, made};
use wot_cert::Sig;
use wot_types::Fpr;
use wot_verdict::Verdicts;

fn revokes_key(sig: &Sig, verdicts: &Verdicts, fpr: &Fpr) -> bool
    ensures { result ≡ revokes_key_spec verdicts.now.entries fpr.now sig.now }
{
    has_kind(sig, KEY_REVOCATION) && counts(sig, verdicts, fpr)
}

fn is_hard_revocation(sig: &Sig, verdicts: &Verdicts, fpr: &Fpr) -> bool
    ensures { result ≡ is_hard_spec verdicts.now.entries fpr.now sig.now }
{
    revokes_key(sig, verdicts, fpr) && !is_soft(sig)
}

fn is_soft_revocation(sig: &Sig, verdicts: &Verdicts, fpr: &Fpr, t: u32) -> bool
    ensures { result ≡ is_soft_revocation_spec verdicts.now.entries fpr.now t sig.now }
{
    revokes_key(sig, verdicts, fpr) && is_soft(sig) && is_live(sig, t)
}

/// Whether one of these is a hard revocation of the key, whenever it was created.
pub(crate) fn has_hard(direct: &[Sig], verdicts: &Verdicts, fpr: &Fpr) -> bool
    ensures { result ≡ list_any (is_hard_spec verdicts.now.entries fpr.now) direct.now }
{
    let mut found = false;
    let mut rest = direct;
    'back: while let Some((sig, prefix)) = rest.split_last() {
        rest = prefix;
        found = is_hard_revocation(sig, verdicts, fpr) || found;
    }
    found
}

/// When the first live soft revocation of the key was created.
pub(crate) fn soft_moment(direct: &[Sig], verdicts: &Verdicts, fpr: &Fpr, t: u32) -> Option<u32>
    ensures { result ≡ soft_moment_spec verdicts.now.entries fpr.now t direct.now }
{
    let mut first: Option<u32> = None;
    let mut rest = direct;
    'back: while let Some((sig, prefix)) = rest.split_last() {
        rest = prefix;
        if is_soft_revocation(sig, verdicts, fpr, t) {
            first = Some(sooner(made(sig), first));
        }
    }
    first
}

fn sooner(made: u32, first: Option<u32>) -> u32
    ensures { result ≡ option_map_or (min made) first made }
{
    match first {
        Some(other) => made.min(other),
        None => made,
    }
}
