//! A piece of the list of bindings: the first few after a place. The walk starts at the place's fingerprint and stops
//! when the piece is full, so a piece costs its own questions. Cursors and paged listings use it; the contract
//! says that it is a piece of the list that `listing` would return.
ghost use Rattle.std.specs.Prelude.{◌≡◌, ◌≤◌, ◌∷◌, [], length, map, IfOk, OnOk};
ghost use Rattle.std.specs.Option.{option_copied};
ghost use Rattle.wot_explain.specs.Listing.{IsSought, pair_of, pairs_of, pairs_of_all};
ghost use Rattle.wot_explain.specs.Piece.{GoesOn, IsPageHere, IsPageThen, IsPieceHere, IsPieceThen};
ghost use Rattle.wot_explain.specs.Piece.{comes_after as comes_after_spec, fpr_at};

use crate::Bind;
use crate::listing::list_pair;
use crate::sought::{Page, Sought};
use std::alloc::Global;
use std::cmp::Ordering;
use wot_cert::{Cert, Part};
use wot_edge::{Roads, Roots};
use wot_keyring::{CertsIter, Keyring};
use wot_search::Reach;
use wot_types::{Fpr, Memory, Place, compare_fprs};

/// Whether a fingerprint and a user ID come after a place, if there is one.
fn comes_after(fpr: &Fpr, uid: &[u8], after: Option<&Place>) -> bool
    ensures { result ≡ comes_after_spec (option_copied after.entry) (fpr.now, uid.now) }
{
    let Some(place) = after else { return true };
    match compare_fprs(fpr, &place.fpr) {
        Ordering::Less => false,
        Ordering::Greater => true,
        Ordering::Equal => uid.cmp(place.uid.octets()) == Ordering::Greater,
    }
}

/// The fingerprint at which the walk starts.
fn start(after: Option<&Place>) -> Option<Fpr>
    ensures { result ≡ fpr_at (option_copied after.entry) }
{
    match after {
        Some(place) => Some(place.fpr),
        None => None,
    }
}

/// Appends a binding if it comes after the place, its sum reaches what is wanted, and the piece isn't full.
fn piece_pair<R: Roads>(
    alloc: Global,
    roads: &R,
    page: &Page<'_>,
    fpr: &Fpr,
    uid: &[u8],
    out: &mut Vec<Bind>,
) -> Result<(), Memory>
    requires sought { IsSought (R.network roads.now) page.now.sought }
    ensures { OnOk result (GoesOn (R.network roads.now) page.now
        ((fpr.now, uid.now) ∷ []) out.old out.new) }
{
    if out.len() >= page.count as usize {
        return Ok(());
    }
    if !comes_after(fpr, uid, page.after) {
        return Ok(());
    }
    list_pair(alloc, roads, &page.sought, fpr, uid, out)?;
    Ok(())
}

fn piece_user_ids<R: Roads>(
    alloc: Global,
    roads: &R,
    page: &Page<'_>,
    fpr: &Fpr,
    user_ids: &[Part],
    out: &mut Vec<Bind>,
) -> Result<(), Memory>
    requires sought { IsSought (R.network roads.now) page.now.sought }
    ensures { OnOk result (GoesOn (R.network roads.now) page.now
        (map (pair_of fpr.now) user_ids.now) out.old out.new) }
{
    let mut rest = user_ids;
    'rest: while let Some((uid, others)) = rest.split_first() {
        piece_pair(alloc, roads, page, fpr, uid.body(), out)?;
        rest = others;
    }
    Ok(())
}

fn piece_cert<R: Roads>(
    alloc: Global,
    roads: &R,
    page: &Page<'_>,
    cert: &Cert,
    out: &mut Vec<Bind>,
) -> Result<(), Memory>
    requires sought { IsSought (R.network roads.now) page.now.sought }
    ensures { OnOk result (GoesOn (R.network roads.now) page.now
        (pairs_of cert.now) out.old out.new) }
{
    piece_user_ids(alloc, roads, page, &cert.fpr(), cert.user_ids(), out)
}

/// Appends bindings until the piece is full.
fn piece_certs<R: Roads>(
    alloc: Global,
    roads: &R,
    page: &Page<'_>,
    certs: CertsIter<'_>,
    out: &mut Vec<Bind>,
) -> Result<(), Memory>
    requires sought { IsSought (R.network roads.now) page.now.sought }
    ensures { OnOk result (GoesOn (R.network roads.now) page.now
        (pairs_of_all certs.entry) out.old out.new) }
{
    'certs: for cert in certs {
        if out.len() >= page.count as usize {
            return Ok(());
        }
        piece_cert(alloc, roads, page, cert, out)?;
    }
    Ok(())
}

/// The first `count` of the bindings of [`list`](crate::list) that come after the place, or the first ones of all if
/// there is no place.
pub fn list_after<R: Roads>(
    alloc: Global,
    keyring: &Keyring,
    roads: &R,
    roots: &Roots,
    wanted: u32,
    after: Option<&Place>,
    count: u32,
) -> Result<Vec<Bind>, Memory>
    requires wanted { 1 ≤ wanted }
    requires few { length roots.now ≤ 64 }
    ensures piece { IfOk result
        (IsPieceHere (R.network roads.now) keyring.now roots.now wanted (option_copied after.entry) count) }
    ensures list { IfOk result
        (IsPieceThen (R.network roads.now) keyring.now roots.now wanted (option_copied after.entry) count) }
{
    let reach = Reach::everywhere(alloc);
    let sought = Sought {
        roots,
        reach: &reach,
        wanted,
    };
    let page = Page {
        sought,
        after,
        count,
    };
    list_page(alloc, keyring, roads, &page)
}

/// As [`list_after`], with a table of how far issuers reach that serves all pages of a list.
pub fn list_page<R: Roads>(
    alloc: Global,
    keyring: &Keyring,
    roads: &R,
    page: &Page<'_>,
) -> Result<Vec<Bind>, Memory>
    requires sought { IsSought (R.network roads.now) page.now.sought }
    ensures piece { IfOk result (IsPageHere (R.network roads.now) keyring.now page.now) }
    ensures list { IfOk result (IsPageThen (R.network roads.now) keyring.now page.now) }
{
    let mut binds = Vec::new(alloc);
    let certs = keyring.certs_from(start(page.after));
    piece_certs(alloc, roads, page, certs, &mut binds)?;
    Ok(binds)
}
