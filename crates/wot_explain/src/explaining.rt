//! `explain`: the reply to why a binding is or isn't authenticated, certification by certification. It finds the user
//! ID and asks `target` and `reasons`. Its contract says that a step is there if and only if the certification is a
//! usable edge, by the definitions of edges alone.
ghost use Rattle.std.specs.Prelude.{◌≡◌, slice_get, IfOk};
ghost use Rattle.std.specs.Option.{option_copied};
ghost use Rattle.wot_explain.specs.Explaining.{Explains, explained_in, explanation};
ghost use Rattle.wot_component.specs.Certificate.{sig_cmp};
ghost use Rattle.wot_component.specs.Ranked.{IsRising};
ghost use Rattle.wot_explain.specs.Usable.{AreRoadsOf, TellsEdges};
ghost use Rattle.wot_keyring_spec.specs.Keyring.{certificates_in};
ghost use Rattle.wot_live.specs.Found.{HasFew};

use crate::reasons::reasons;
use crate::target::target_word;
use crate::{ExplainFault, Explained};
use std::alloc::Global;
use wot_cert::{Cert, Part};
use wot_edge::Roads;
use wot_keyring::Keyring;
use wot_standing::{is_own_revoked, standing};
use wot_types::{Fpr, Memory};

fn explain_on(
    alloc: Global,
    keyring: &Keyring,
    t: u32,
    cert: &Cert,
    place: u32,
    uid: &Part,
) -> Result<Explained, Memory>
    requires few { HasFew uid.now }
    ensures explained { IfOk result (λ explained. explained ≡ explained_in keyring.now t cert.now place uid.now) }
    ensures rises { IsRising sig_cmp uid.now.sigs }
{
    // The law brings in that the signatures are sorted.
    let _sigs = uid.sigs();
    let verdicts = keyring.verdicts();
    let fpr = cert.fpr();
    let (standing, _) = standing(cert, verdicts, t);
    let target = target_word(&standing, t, is_own_revoked(uid, verdicts, &fpr, t));
    let certs = reasons(alloc, uid, keyring, t, fpr, place)?;
    Ok(Explained { target, certs })
}

fn user_id_at(user_ids: &[Part], place: u32) -> Option<&Part>
    ensures { option_copied result ≡ slice_get user_ids.now place }
{
    user_ids.get(place as usize)
}

/// Why a certificate is or isn't in order for a user ID at `t`, and why each certification on it is or isn't a usable
/// edge. The roads are those of this keyring at `t`.
pub fn explain<R: Roads>(
    alloc: Global,
    keyring: &Keyring,
    roads: &R,
    t: u32,
    fpr: &Fpr,
    uid: &[u8],
) -> Result<Explained, ExplainFault>
    requires present { AreRoadsOf (R.network roads.now) keyring.now t }
    ensures explained { Explains result
        (explanation (certificates_in keyring.now) keyring.now.verdicts t fpr.now uid.now) }

    // A step is there if and only if the certification is a usable edge, by the definition of edges alone. It is that
    // edge's.
    ensures edges { IfOk result (λ explained. TellsEdges keyring.now t fpr.now uid.now explained.certs) }
{
    let Some(place) = roads.place(fpr, uid) else {
        return Err(ExplainFault::Absent);
    };
    let Some(cert) = keyring.get(fpr) else {
        return Err(ExplainFault::Absent);
    };
    let Some(part) = user_id_at(cert.user_ids(), place) else {
        return Err(ExplainFault::Absent);
    };
    match explain_on(alloc, keyring, t, cert, place, part) {
        Ok(explained) => Ok(explained),
        Err(Memory) => Err(ExplainFault::Memory),
    }
}
