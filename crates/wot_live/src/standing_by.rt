//! The standing of a certificate whose edges are known: the edges of its own key say which signatures are its
//! self-certifications, so no verdict on a user ID is looked up again. wot_network asks it for each line that it makes.
ghost use Rattle.std.specs.Prelude.{◌≡◌};
ghost use Rattle.std.specs.Option.{option_copied};
ghost use Rattle.wot_types.specs.Fpr.{same_fpr};
ghost use Rattle.wot_standing.specs.Standing.{own as own_of, standing_of};
ghost use Rattle.wot_live.specs.Rows.{edges_of};
ghost use Rattle.wot_live.specs.SelfCertified.{primary_by as primary_by_spec, self_certification as self_spec};

use crate::laws::self_edges;
use std::cmp::Ordering;
use wot_cert::{Cert, Sig};
use wot_edge::Edge;
use wot_standing::{Standing, more_primary, standing_with};
use wot_types::{Fpr, compare_fprs};
use wot_verdict::Verdicts;

/// Whether this key made the edge.
fn is_by(own: &Fpr, edge: &Edge) -> bool
    ensures { result ≡ same_fpr own.now edge.now.issuer }
{
    compare_fprs(own, &edge.facts().issuer) == Ordering::Equal
}

/// The self-certification that makes this edge, if the issuer is the key itself.
fn self_certification<'a>(cert: &'a Cert, own: &Fpr, edge: &Edge) -> Option<&'a Sig>
    requires own { own.now ≡ own_of cert.now }
    ensures { option_copied result ≡ self_spec cert.now edge.now }
{
    if !is_by(own, edge) {
        return None;
    }
    let facts = edge.facts();
    let part = cert.user_ids().get(facts.uid as usize)?;
    part.sigs().get(facts.sig as usize)
}

/// The greatest of the self-certifications that make these edges.
fn primary_by<'a>(cert: &'a Cert, edges: &[Edge]) -> Option<&'a Sig>
    ensures { option_copied result ≡ primary_by_spec cert.now edges.now }
{
    let own = cert.fpr();
    let mut best: Option<&'a Sig> = None;
    let mut rest = edges;
    'back: while let Some((edge, prefix)) = rest.split_last() {
        rest = prefix;
        if let Some(sig) = self_certification(cert, &own, edge) {
            best = more_primary(sig, best);
        }
    }
    best
}

/// The standing of a certificate at a time, given all edges into it at that time.
pub fn standing_by_edges(cert: &Cert, verdicts: &Verdicts, t: u32, edges: &[Edge]) -> Standing
    requires edges { edges.now ≡ edges_of verdicts.now.entries cert.now t }
    ensures standing { result ≡ standing_of verdicts.now.entries cert.now t }
{
    self_edges(cert);
    standing_with(cert, verdicts, t, primary_by(cert, edges))
}
