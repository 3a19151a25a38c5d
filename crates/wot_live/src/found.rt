//! Finds the edges of all issuers into one certificate. wot_standing walks over the signatures of each user ID once and
//! keeps the place of each issuer's newest certification there, in the order of issuer and user ID. Each place makes an
//! edge, and by the law `found_are_edges` these are `edges_of`.
ghost use Rattle.std.specs.Prelude.{◌≡◌, ◌<◌, ◌≤◌, ◌^◌, length, IfOk};
ghost use Rattle.std.specs.List.{AllByRecursion};
ghost use Rattle.wot_component.specs.Counts.{signatures_of};
ghost use Rattle.wot_standing.specs.Standing.{own};
ghost use Rattle.wot_live.specs.Found.{AreFound, HasFew};
ghost use Rattle.wot_live.specs.Found.{edge_at_place as edge_at_place_spec, found_edge as found_edge_spec};

use crate::terms::edge_with;
use std::alloc::Global;
use wot_cert::{Cert, Part};
use wot_edge::EdgeFacts;
use wot_standing::{Certified, Certifiers};
use wot_types::{Fpr, Memory};
use wot_verdict::Verdicts;

/// The edge of the signature at this place on a user ID.
fn edge_at_place(part: &Part, place: u32, issuer: Fpr, target: Fpr, uid: u32) -> Option<EdgeFacts>
    ensures { result ≡ edge_at_place_spec issuer target uid part.now place }
{
    let sig = part.sigs().get(place as usize)?;
    let said = sig.terms()?;
    Some(edge_with(issuer, target, uid, place, said))
}

/// The edge of an issuer on a user ID, by the place of the certification there. `target` is the certificate's own key.
pub(crate) fn found_edge(cert: &Cert, target: Fpr, by: Certified, place: u32) -> Option<EdgeFacts>
    requires target { target ≡ own cert.now }
    ensures { result ≡ found_edge_spec cert.now (by, place) }
{
    let part = cert.user_ids().get(by.uid as usize)?;
    edge_at_place(part, place, by.issuer, target, by.uid)
}

/// The newest certification of each issuer on each user ID. The verdicts on one user ID's signatures mostly stand just
/// before those on the next one's, so they are looked for there first.
pub(crate) fn find(
    alloc: Global,
    cert: &Cert,
    verdicts: &Verdicts,
    t: u32,
) -> Result<Certifiers, Memory>
    requires few { AllByRecursion HasFew cert.now.user_ids }
    requires count { length cert.now.user_ids < 2 ^ 32 }
    ensures found { IfOk result (λ found. AreFound verdicts.now.entries cert.now t found) }
    ensures count { IfOk result (λ found. length found ≤ signatures_of cert.now) }
{
    let mut found = Certifiers::new(alloc);
    // Where the verdicts on the signatures of `rest` may end.
    let mut end = 0usize;
    let mut rest = cert.user_ids();
    'back: while let Some((part, prefix)) = rest.split_last() {
        rest = prefix;
        let count = part.sigs().len();
        let from = end.saturating_sub(count);
        let next = found.add(alloc, prefix.len() as u32, part, verdicts, t, from)?;
        end = next.saturating_sub(count);
    }
    // Its clause says that they are in order.
    let _ = found.len();
    Ok(found)
}
