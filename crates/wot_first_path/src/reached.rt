//! What a search has found: a node for each issuer, and the issuers of the last layer.
//!
//! `specs/Layer.antt` says what is known by it. `consider` adds nodes, `collect` and `choose` read them.
ghost use Rattle.std.specs.Prelude.{◌≡◌, OnOk};
ghost use Rattle.wot_first_path.specs.Choice.{node_width};
ghost use Rattle.wot_first_path.specs.Reached.{look};
ghost use Rattle.wot_first_path.specs.Growth.{wide_of, PutsNode, PutsIssuer};

use crate::node::Node;
use std::alloc::Global;
use std::collections::BTreeMap;
use wot_types::{Fpr, Memory};

/// What a search found for each issuer, and the issuers of the last layer.
#[derive(Drop)]
pub struct Reached {
    pub nodes: BTreeMap<Fpr, Node, Global>,
    pub layer: Vec<Fpr, Global>,
    /// The place of each of the last layer in the table of reach, if it is known; only a hint.
    pub places: Vec<Option<u32>, Global>,
}

/// The node that was found for an issuer.
pub fn node_at(nodes: &BTreeMap<Fpr, Node>, fpr: &Fpr) -> Option<Node>
    ensures { result ≡ look nodes.now fpr.now }
{
    match nodes.get(fpr) {
        Some(node) => Some(*node),
        None => None,
    }
}

pub fn width_of(node: Option<Node>) -> u8
    ensures { result ≡ node_width node }
{
    match node {
        Some(node) => node.width,
        None => 0,
    }
}

/// The width of the suffix of `size` edges that was found from here.
pub fn width_at(reached: &Reached, size: u8, at: &Fpr) -> u8
    ensures { result ≡ wide_of size (look reached.now.nodes at.now) }
{
    if size == 0 {
        255
    } else {
        width_of(node_at(&reached.nodes, at))
    }
}

/// Keeps a node for its issuer, whose place may be known. If it is the first node there, the issuer joins the last
/// layer.
pub fn put(reached: &mut Reached, node: Node, place: Option<u32>) -> Result<(), Memory>
    ensures nodes { OnOk result (PutsNode reached.old reached.new node) }
    ensures layer { OnOk result (PutsIssuer reached.old reached.new node.step.issuer) }
{
    let issuer = node.step.issuer;
    let before = reached.nodes.insert(issuer, node)?;
    if before.is_none() {
        reached.layer.push(issuer)?;
        reached.places.push(place)?;
    }
    Ok(())
}
