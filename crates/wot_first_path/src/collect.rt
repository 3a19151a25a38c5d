//! The steps of a suffix, collected from one node to the next.
//!
//! It uses `reached`. `first_of_layer` makes paths of what a search found with it.
ghost use Rattle.std.specs.Prelude.{IfOk};
ghost use Rattle.wot_first_path.specs.Growth.{IsFoundFrom};
ghost use Rattle.wot_first_path.specs.Reached.{look};

use crate::node::Node;
use crate::reached::node_at;
use std::alloc::Global;
use std::collections::BTreeMap;
use wot_edge::Step;
use wot_types::{Fpr, Memory};

/// The suffix of `size` edges that was found from here.
pub fn collect(
    alloc: Global,
    nodes: &BTreeMap<Fpr, Node>,
    from: &Fpr,
    size: u8,
) -> Result<Vec<Step>, Memory>
    ensures { IfOk result (λ made. IsFoundFrom (look nodes.now) from.now size made.items) }
{
    let mut steps: Vec<Step> = Vec::new(alloc);
    let mut at = *from;
    'edges: for _i in 0..size {
        match node_at(nodes, &at) {
            None => return Ok(steps),
            Some(node) => {
                steps.push(node.step)?;
                at = node.step.target;
            }
        }
    }
    Ok(steps)
}
