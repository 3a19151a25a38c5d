//! The trait `Roads`: what a search may ask about a network at one time.
//!
//! Contracts see a finite record for each user ID (`specs/Record.antt`). `wot_network` implements it for a keyring;
//! `wot_search`, `wot_auth` and `wot_check` are generic over it, so a change here proves all of them again.
ghost use Rattle.std.specs.Prelude.{◌≡◌, ℕ, List, IfOk};
ghost use Rattle.std.specs.List.Sorted.{IsStrictlySortedBy};
ghost use Rattle.wot_edge.specs.Order.{edge_cmp};
ghost use Rattle.wot_edge.specs.Record.{Record, EachRow, Has, IsRecord, edges_into, entry_at};

use crate::Edge;
use wot_types::{Fpr, Memory};

/// A certification network at one time. For each user ID it is a record.
pub trait Roads {
    // the record of a user ID
    ghost network: { Self → List ℕ → Record };

    /// The edges into a target, in the order of issuer and user ID. None if the target isn't there.
    fn rows(&self, target: &Fpr) -> &[Edge]
        ensures rows { (uid : List ℕ) → result.now ≡ edges_into (network self.now uid) target.now }
        ensures order { IsStrictlySortedBy edge_cmp result.now }
        ensures lawful { (uid : List ℕ) → IsRecord (network self.now uid) };

    /// Whether an edge is usable.
    fn usable(&self, edge: &Edge) -> bool
        requires row { (uid : List ℕ) → Has (edges_into (network self.now uid) edge.now.target) edge.now }
        ensures usable { (uid : List ℕ) → EachRow (network self.now uid) edge.now (λ row. row.usable ≡ result) };

    /// Whether the scope of an edge holds for a user ID.
    fn scope(&self, edge: &Edge, uid: &[u8]) -> Result<bool, Memory>
        requires row { (id : List ℕ) → Has (edges_into (network self.now id) edge.now.target) edge.now }
        ensures scope { IfOk result (λ holds. EachRow (network self.now uid.now) edge.now (λ row. row.scope ≡ holds)) };

    /// Whether a key is a valid target for a user ID.
    fn in_order(&self, target: &Fpr, uid: &[u8]) -> bool
        ensures in_order { result ≡ (entry_at (network self.now uid.now) target.now).in_order }
        ensures lawful { (id : List ℕ) → IsRecord (network self.now id) };

    /// The place of a user ID among a target's. `None` if the target or the user ID isn't there.
    fn place(&self, target: &Fpr, uid: &[u8]) -> Option<u32>
        ensures place { result ≡ (entry_at (network self.now uid.now) target.now).place };
}
