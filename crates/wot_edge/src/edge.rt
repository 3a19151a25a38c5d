//! An edge: a certification that a path can use.
//!
//! Only `Edge::make` makes one, and counts it in `Steps`. `wot_live` makes edges from certificates; a field more means
//! a change there and in `specs/Path.antt`.
ghost use Rattle.std.specs.Prelude.{◌≡◌, ◌+◌, min};

use std::marker::Model;
use wot_types::{Fpr, Steps};

/// What an edge says: who certifies whose user ID, with which depth and amount.
#[derive(Clone, Copy, Debug, PartialEq, Eq)]
pub struct EdgeFacts {
    /// The issuer.
    pub issuer: Fpr,
    /// The key whose user ID is certified.
    pub target: Fpr,
    /// The place of the user ID among the target's user IDs, ordered by octets.
    pub uid: u32,
    /// The place of the signature among those on the user ID.
    pub sig: u32,
    /// When the signature was created, in seconds since 1970.
    pub made: u32,
    /// How many edges may follow; 255 is unlimited.
    pub depth: u8,
    /// The amount of trust; 120 is full trust.
    pub amount: u8,
    /// Whether its scope is limited to some user IDs.
    pub scoped: bool,
}

/// An edge that was counted when it was made. It can't be copied.
#[derive(Drop)]
pub struct Edge {
    facts: EdgeFacts,
}

impl Model for Edge {
    ghost use Rattle.wot_edge.specs.declared.edge.EdgeFacts.{EdgeFacts};

    ghost Value = { EdgeFacts };

    ghost view = { λ edge. edge.facts };
}

impl Edge {
    /// Makes an edge, and counts it.
    pub fn make(facts: EdgeFacts, steps: &mut Steps) -> Edge
        ensures facts { result ≡ facts }
        ensures counted { steps.new.made ≡ min (steps.old.made + 1) u64.MAX }
    {
        steps.made = steps.made.saturating_add(1);
        Edge { facts }
    }

    /// What the edge says.
    pub fn facts(&self) -> EdgeFacts
        ensures facts { result ≡ self.now }
    {
        self.facts
    }
}
