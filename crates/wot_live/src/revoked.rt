//! Finds the user IDs that the certificate's own key revoked. wot_standing decides on each user ID. A revoked user ID
//! is never a target.
ghost use Rattle.std.specs.Prelude.{◌≡◌, ◌<◌, ◌^◌, length, IfOk};
ghost use Rattle.wot_live.specs.Rows.{revoked_of};

use std::alloc::Global;
use wot_cert::Cert;
use wot_standing::is_own_revoked;
use wot_types::Memory;
use wot_verdict::Verdicts;

/// The places of the user IDs that the certificate's own key revoked.
pub(crate) fn revoked_places(
    alloc: Global,
    cert: &Cert,
    verdicts: &Verdicts,
    t: u32,
) -> Result<Vec<u32>, Memory>
    requires count { length cert.now.user_ids < 2 ^ 32 }
    ensures { IfOk result (λ places. places.items ≡ revoked_of verdicts.now.entries cert.now t) }
{
    let mut places = Vec::new(alloc);
    let fpr = cert.fpr();
    let mut place = 0u32;
    let mut rest = cert.user_ids();
    'rest: while let Some((part, others)) = rest.split_first() {
        rest = others;
        if is_own_revoked(part, verdicts, &fpr, t) {
            places.push(place)?;
        }
        place += 1;
    }
    Ok(places)
}
