//! The latest revocation of an issuer: one moment decides which of its signatures are revoked.
//!
//! It uses `kinds` and `specs/Latest.antt`. `newest` and `certifiers` compare with it.
ghost use Rattle.std.specs.Prelude.{◌≡◌, max};
ghost use Rattle.std.specs.Option.{option_map_or};
ghost use Rattle.wot_standing.specs.Latest.{revoked_at, outlives as outlives_spec};

use crate::kinds::{CERTIFICATION_REVOCATION, counts, has_kind, is_live, made};
use wot_cert::Sig;
use wot_types::Fpr;
use wot_verdict::Verdicts;

/// When the latest live revocation by this key among these signatures was created. Only one that is later than those
/// behind it needs a look at the verdicts.
pub(crate) fn latest_revocation(sigs: &[Sig], verdicts: &Verdicts, fpr: &Fpr, t: u32) -> Option<u32>
    ensures { result ≡ revoked_at verdicts.now.entries fpr.now t sigs.now }
{
    let mut best: Option<u32> = None;
    let mut rest = sigs;
    'back: while let Some((sig, prefix)) = rest.split_last() {
        rest = prefix;
        if has_kind(sig, CERTIFICATION_REVOCATION)
            && is_live(sig, t)
            && outlives(best, made(sig))
            && counts(sig, verdicts, fpr)
        {
            best = Some(made(sig));
        }
    }
    best
}

pub(crate) fn later(made: u32, best: Option<u32>) -> u32
    ensures { result ≡ option_map_or (max made) best made }
{
    match best {
        Some(other) => made.max(other),
        None => made,
    }
}

/// Whether a signature created then is newer than the latest revocation, if there is one.
pub(crate) fn outlives(revoked: Option<u32>, made: u32) -> bool
    ensures { result ≡ outlives_spec revoked made }
{
    match revoked {
        Some(revoked) => revoked < made,
        None => true,
    }
}
