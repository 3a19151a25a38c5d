//! `rows`, the one call of this crate: edges and revoked user IDs of a certificate at a time, and the span of times in
//! which they hold. Its contract is what the network above is proved from. A rule about edges changes in `terms` or in
//! wot_standing, not here.
ghost use Rattle.std.specs.Prelude.{◌≡◌, ◌<◌, ◌≤◌, ◌+◌, ◌^◌, ◌++◌, [], min, length, OnOk, IfOk};
ghost use Rattle.std.specs.List.{cons_option};
ghost use Rattle.std.specs.List.Sorted.{IsStrictlySortedBy};
ghost use Rattle.wot_component.specs.Counts.{signatures_of};
ghost use Rattle.wot_cert.specs.Span.{span_of};
ghost use Rattle.wot_component.specs.Text.{size_of};
ghost use Rattle.wot_edge.specs.Order.{edge_cmp};
ghost use Rattle.wot_standing.specs.Standing.{own};
ghost use Rattle.wot_standing.specs.Throughout.{IsThroughout};
ghost use Rattle.wot_live.specs.Found.{found_edges};
ghost use Rattle.wot_live.specs.Rows.{AreInto, AreRows, StandsThroughout, edges_of, revoked_of};

use crate::Rows;
use crate::found::{find, found_edge};
use crate::laws::{edges_are_rows, found_are_edges};
use crate::revoked::revoked_places;
use std::alloc::Global;
use wot_cert::{Cert, Span};
use wot_edge::{Edge, EdgeFacts};
use wot_standing::{Certifiers, steady_span};
use wot_types::{Memory, Steps};
use wot_verdict::Verdicts;

/// Appends an edge, if there is one, and counts it.
fn push(edges: &mut Vec<Edge>, facts: Option<EdgeFacts>, steps: &mut Steps) -> Result<(), Memory>
    ensures pushed { OnOk result (edges.new.items ≡ edges.old.items ++ cons_option facts []) }
    ensures made { OnOk result
        (min (steps.old.made + length (cons_option facts [])) u64.MAX ≤ steps.new.made) }
    ensures made_most { steps.new.made ≤ steps.old.made + 1 }
    ensures never_less { steps.old.made ≤ steps.new.made }
{
    // Reading the count brings its range into the proof.
    let _made = steps.made;
    if let Some(facts) = facts {
        edges.push(Edge::make(facts, steps))?;
    }
    Ok(())
}

/// Creates the edges that were found, and counts them.
fn make_edges(
    alloc: Global,
    cert: &Cert,
    found: &Certifiers,
    steps: &mut Steps,
) -> Result<Vec<Edge>, Memory>
    ensures edges { IfOk result (λ edges. edges.items ≡ found_edges cert.now found.now) }
    ensures made { IfOk result (λ edges. min (steps.old.made + length edges.items) u64.MAX ≤ steps.new.made) }
    ensures made_most { steps.new.made ≤ steps.old.made + length found.now }
    ensures never_less { steps.old.made ≤ steps.new.made }
{
    // Reading the count brings its range into the proof.
    let _made = steps.made;
    let target = cert.fpr();
    let mut edges = Vec::with_capacity(alloc, found.len())?;
    'entries: for (by, place) in found.iter() {
        push(&mut edges, found_edge(cert, target, *by, *place), steps)?;
    }
    Ok(edges)
}

/// The edges into a certificate at a time, the user IDs that its own key revoked, and the span of times in which both
/// stay the same, and so does the standing of its key.
///
/// The edge of an issuer and a user ID is the newest certification there that counts for the issuer, is live and
/// unrevoked. A self-certification has depth 0, amount 120 and no scope. Each new edge is counted.
pub fn rows(
    alloc: Global,
    cert: &Cert,
    verdicts: &Verdicts,
    t: u32,
    steps: &mut Steps,
) -> Result<(Rows, Span), Memory>
    requires size { size_of cert.now < 2 ^ 32 }
    ensures edges { IfOk result (λ done. done.0.edges.items ≡ edges_of verdicts.now.entries cert.now t) }
    ensures exact { IfOk result (λ done. AreRows verdicts.now.entries cert.now t done.0.edges.items) }
    ensures order { IfOk result (λ done. IsStrictlySortedBy edge_cmp done.0.edges.items) }
    ensures into { IfOk result (λ done. AreInto (own cert.now) done.0.edges.items) }
    ensures revoked { IfOk result (λ done. done.0.revoked.items ≡ revoked_of verdicts.now.entries cert.now t) }
    ensures span { IfOk result (λ done. done.1 ≡ span_of cert.now t) }
    ensures throughout { IfOk result
        (λ done. IsThroughout done.1 (edges_of verdicts.now.entries cert.now) done.0.edges.items) }
    ensures revoked_throughout { IfOk result
        (λ done. IsThroughout done.1 (revoked_of verdicts.now.entries cert.now) done.0.revoked.items) }
    ensures standing { IfOk result (λ done. StandsThroughout verdicts.now.entries cert.now t done.1) }
    ensures made_least { IfOk result
        (λ done. min (steps.old.made + length done.0.edges.items) u64.MAX ≤ steps.new.made) }
    ensures made_most { steps.new.made ≤ steps.old.made + signatures_of cert.now }
    ensures never_less { steps.old.made ≤ steps.new.made }
{
    let found = find(alloc, cert, verdicts, t)?;
    let revoked = revoked_places(alloc, cert, verdicts, t)?;
    let edges = make_edges(alloc, cert, &found, steps)?;
    edges_are_rows();
    found_are_edges();
    Ok((Rows { edges, revoked }, steady_span(cert, t)))
}
