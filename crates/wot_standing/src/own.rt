//! Whether a user ID is revoked by its own key. It uses `kinds` and `newest`, and `specs/Own.antt`. Such a user
//! ID is no valid target.
ghost use Rattle.std.specs.Prelude.{◌≡◌};
ghost use Rattle.std.specs.List.{list_any};
ghost use Rattle.wot_cert.specs.Revoked.{revokes_by};
ghost use Rattle.wot_standing.specs.Own.{is_own_revoked as is_own_revoked_spec};

use crate::kinds::{Binding, revokes};
use crate::newest::newest_valid;
use wot_cert::{Part, Sig};
use wot_types::Fpr;
use wot_verdict::Verdicts;

fn has_revocation(sigs: &[Sig], verdicts: &Verdicts, fpr: &Fpr, t: u32) -> bool
    ensures { result ≡ list_any (revokes_by verdicts.now.entries fpr.now t) sigs.now }
{
    let mut found = false;
    let mut rest = sigs;
    'back: while let Some((sig, prefix)) = rest.split_last() {
        rest = prefix;
        found = found || revokes(sig, verdicts, fpr, t);
    }
    found
}

/// Whether a user ID is revoked at a time by its own key, which has this fingerprint: it has a live revocation by the
/// key, and no live and unrevoked self-certification.
pub fn is_own_revoked(uid: &Part, verdicts: &Verdicts, fpr: &Fpr, t: u32) -> bool
    ensures revoked { result ≡ is_own_revoked_spec verdicts.now.entries fpr.now t uid.now }
{
    has_revocation(uid.sigs(), verdicts, fpr, t)
        && newest_valid(uid.sigs(), verdicts, fpr, t, Binding::Certification).is_none()
}
