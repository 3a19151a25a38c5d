//! `list`: all bindings that are authenticated to an amount. It asks for the answer of every user ID of the keyring,
//! with one table of reach for all of them. `piece` lists the same bindings in pieces, through `list_pair`.
ghost use Rattle.std.specs.Prelude.{◌≤◌, ◌∷◌, [], length, map, IfOk, OnOk};
ghost use Rattle.wot_explain.specs.Listing.{AddsSought, IsListThen, IsSought, IsTheList};
ghost use Rattle.wot_explain.specs.Listing.{pair_of, pairs_kept, pairs_of, pairs_of_all};

use crate::Bind;
use crate::sought::Sought;
use std::alloc::Global;
use wot_auth::sum_within;
use wot_cert::{Cert, Part};
use wot_edge::{Roads, Roots};
use wot_keyring::{CertsIter, Keyring};
use wot_search::{Asked, make_reach};
use wot_types::{Fpr, Memory, UserId};

/// Appends a binding if its sum reaches the wanted amount.
pub(crate) fn list_pair<R: Roads>(
    alloc: Global,
    roads: &R,
    sought: &Sought,
    fpr: &Fpr,
    uid: &[u8],
    out: &mut Vec<Bind>,
) -> Result<(), Memory>
    requires sought { IsSought (R.network roads.now) sought.now }
    ensures { OnOk result (AddsSought (R.network roads.now) sought.now
        ((fpr.now, uid.now) ∷ []) out.old.items out.new.items) }
{
    let asked = Asked {
        roots: sought.roots,
        reach: sought.reach,
        target: fpr,
        uid,
    };
    let sum = sum_within(alloc, roads, &asked, sought.wanted)?;
    if sum < sought.wanted {
        return Ok(());
    }
    let uid = UserId::new(alloc, uid)?;
    out.push(Bind {
        sum,
        fpr: *fpr,
        uid,
    })?;
    Ok(())
}

/// Appends those of a key's user IDs that reach the wanted amount.
fn list_user_ids<R: Roads>(
    alloc: Global,
    roads: &R,
    sought: &Sought,
    fpr: &Fpr,
    user_ids: &[Part],
    out: &mut Vec<Bind>,
) -> Result<(), Memory>
    requires sought { IsSought (R.network roads.now) sought.now }
    ensures { OnOk result (AddsSought (R.network roads.now) sought.now (map (pair_of fpr.now) user_ids.now)
        out.old.items out.new.items) }
{
    let mut rest = user_ids;
    'rest: while let Some((uid, others)) = rest.split_first() {
        list_pair(alloc, roads, sought, fpr, uid.body(), out)?;
        rest = others;
    }
    Ok(())
}

fn list_cert<R: Roads>(
    alloc: Global,
    roads: &R,
    sought: &Sought,
    cert: &Cert,
    out: &mut Vec<Bind>,
) -> Result<(), Memory>
    requires sought { IsSought (R.network roads.now) sought.now }
    ensures { OnOk result (AddsSought (R.network roads.now) sought.now
        (pairs_of cert.now) out.old.items out.new.items) }
{
    list_user_ids(alloc, roads, sought, &cert.fpr(), cert.user_ids(), out)
}

fn list_certs<R: Roads>(
    alloc: Global,
    roads: &R,
    sought: &Sought,
    certs: CertsIter<'_>,
    out: &mut Vec<Bind>,
) -> Result<(), Memory>
    requires sought { IsSought (R.network roads.now) sought.now }
    ensures { OnOk result (AddsSought (R.network roads.now) sought.now
        (pairs_of_all certs.entry) out.old.items out.new.items) }
{
    'certs: for cert in certs {
        list_cert(alloc, roads, sought, cert, out)?;
    }
    Ok(())
}

fn fprs_of(alloc: Global, certs: CertsIter<'_>) -> Result<Vec<Fpr>, Memory> {
    let mut fprs = Vec::new(alloc);
    'certs: for cert in certs {
        fprs.push(cert.fpr())?;
    }
    Ok(fprs)
}

/// Every user ID of a certificate whose answer reaches the wanted amount, with the sum of that answer, sorted by
/// fingerprint and user ID.
pub fn list<R: Roads>(
    alloc: Global,
    keyring: &Keyring,
    roads: &R,
    roots: &Roots,
    wanted: u32,
) -> Result<Vec<Bind>, Memory>
    requires wanted { 1 ≤ wanted }
    requires few { length roots.now ≤ 64 }
    ensures listed { IfOk result
        (λ binds. IsTheList (R.network roads.now) roots.now wanted (pairs_kept keyring.now) binds.items) }
    ensures list { IfOk result (λ binds. IsListThen (R.network roads.now) keyring.now roots.now wanted binds.items) }
{
    let fprs = fprs_of(alloc, keyring.certs())?;
    let reach = make_reach(alloc, roads, roots, &fprs)?;
    let sought = Sought {
        roots,
        reach: &reach,
        wanted,
    };
    let mut binds = Vec::new(alloc);
    list_certs(alloc, roads, &sought, keyring.certs(), &mut binds)?;
    Ok(binds)
}
