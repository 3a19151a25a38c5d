//! Whether an issuer revoked a certification: the rule about revocations that `words` uses. It uses the tests of
//! one signature in wot_standing, and `is_unrevoked` of `wot_cert/specs/Revoked.antt`, which the rule for edges in
//! wot_standing uses too.
ghost use Rattle.std.specs.Prelude.{◌≡◌, ◌||◌, not, nat_lt};
ghost use Rattle.std.specs.List.{list_all};
ghost use Rattle.wot_cert.specs.Revoked.{is_unrevoked as is_unrevoked_spec, revokes_by};
ghost use Rattle.wot_cert.specs.Time.{made_of};

use wot_cert::Sig;
use wot_standing::kinds::{is_revocable, made, revokes};
use wot_types::Fpr;
use wot_verdict::Verdicts;

/// Whether each live revocation by this issuer was created before then.
fn are_before(sigs: &[Sig], verdicts: &Verdicts, fpr: &Fpr, t: u32, then: u32) -> bool
    ensures { result
        ≡ list_all (λ r. not (revokes_by verdicts.now.entries fpr.now t r) || nat_lt (made_of r) then) sigs.now }
{
    let mut all = true;
    let mut rest = sigs;
    'back: while let Some((sig, prefix)) = rest.split_last() {
        rest = prefix;
        all = (!revokes(sig, verdicts, fpr, t) || made(sig) < then) && all;
    }
    all
}

/// Whether no revocation by this issuer in the same place revokes a signature at `t`.
pub(crate) fn is_unrevoked(sig: &Sig, sigs: &[Sig], verdicts: &Verdicts, fpr: &Fpr, t: u32) -> bool
    ensures { result ≡ is_unrevoked_spec verdicts.now.entries fpr.now t sigs.now sig.now }
{
    !is_revocable(sig) || are_before(sigs, verdicts, fpr, t, made(sig))
}
