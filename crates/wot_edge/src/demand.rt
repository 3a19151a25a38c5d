//! What is demanded of an edge by its place on a path: the wanted user ID, or a depth and another issuer than the
//! target.
//!
//! It uses `roads` and `specs/Demand.antt`. Usability and scopes are asked for in `wot_search` and `wot_check`,
//! which both use these tests.
ghost use Rattle.std.specs.Prelude.{◌≡◌, ◌↔◌, true};
ghost use Rattle.wot_types.specs.Fpr.{same_fpr};
ghost use Rattle.wot_edge.specs.Demand.{demand_in, is_met, is_place};

use crate::{EdgeFacts, Roads};
use wot_types::{Fpr, compare_fprs};

/// What is demanded of an edge: to be on the wanted user ID, by its place among the target's; or to have at least this
/// depth, and an issuer other than the target.
#[derive(Clone, Copy, Debug, PartialEq, Eq)]
pub enum Demand {
    On(Option<u32>),
    Before(u8),
}

/// What is demanded of edges with `size` edges after them.
pub fn demand_at<R: Roads>(roads: &R, target: &Fpr, uid: &[u8], size: u8) -> Demand
    ensures { result ≡ demand_in (R.network roads.now uid.now) target.now size }
{
    if size == 0 {
        Demand::On(roads.place(target, uid))
    } else {
        Demand::Before(size)
    }
}

/// Whether two fingerprints are equal, as a test that proofs can compute with.
pub fn is_same(a: &Fpr, b: &Fpr) -> bool
    ensures same { result ≡ same_fpr a.now b.now }
    ensures equal { (result ≡ true) ↔ (a.now ≡ b.now) }
{
    compare_fprs(a, b).is_eq()
}

fn is_at(place: Option<u32>, uid: u32) -> bool
    ensures { result ≡ is_place place uid }
{
    match place {
        Some(place) => place == uid,
        None => false,
    }
}

/// Whether an edge meets a demand.
pub fn meets(target: &Fpr, demand: Demand, edge: &EdgeFacts) -> bool
    ensures { result ≡ is_met target.now demand edge.now }
{
    match demand {
        Demand::On(place) => is_at(place, edge.uid),
        Demand::Before(size) => size <= edge.depth && !is_same(&edge.issuer, target),
    }
}
