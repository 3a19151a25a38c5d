//! A line of the network: what was made of one certificate, with the stamp and the span for which it holds. A line is
//! stale as soon as the stamp differs or the time leaves the span; everything that is kept about a certificate is here.
ghost use Rattle.std.specs.Prelude.{◌≡◌};
ghost use Rattle.wot_network.specs.Net.{is_current, mark_of};

use std::marker::Model;
use wot_cert::Span;
use wot_edge::Edge;
use wot_standing::Standing;

/// What was made of one certificate, and for how long it holds.
#[derive(Drop)]
pub(crate) struct NetLine {
    pub(crate) stamp: u64,
    pub(crate) edges: Vec<Edge>,
    pub(crate) standing: Standing,
    pub(crate) revoked: Vec<u32>,
    pub(crate) span: Span,
}

impl Model for NetLine {
    ghost use Rattle.wot_network.specs.Net.{Line};

    ghost Value = { Line };

    ghost view = { λ a. record {
      stamp = a.stamp;
      edges = a.edges.items;
      standing = a.standing;
      revoked = a.revoked.items;
      span = a.span;
    } };
}

impl NetLine {
    pub(crate) fn edges(&self) -> &[Edge]
        ensures edges { result.now ≡ self.now.edges }
    {
        &self.edges
    }

    pub(crate) fn standing(&self) -> &Standing
        ensures standing { result.now ≡ self.now.standing }
    {
        &self.standing
    }

    /// The places of the user IDs that the certificate's own key revoked.
    pub(crate) fn revoked(&self) -> &[u32]
        ensures revoked { result.now ≡ self.now.revoked }
    {
        &self.revoked
    }

    pub(crate) fn span(&self) -> Span
        ensures span { result ≡ self.now.span }
    {
        self.span
    }

    /// Whether the line holds for a certificate with this stamp at `t`.
    pub(crate) fn is_current(&self, stamp: u64, t: u32) -> bool
        ensures current { result ≡ is_current t stamp (mark_of self.now) }
    {
        self.stamp == stamp && self.span.from <= t && t <= self.span.to
    }
}
