//! The end of a search: the path from the chosen root of a layer.
//!
//! It uses `choose` and `collect`. `first_path` calls it after each layer.
ghost use Rattle.std.specs.Prelude.{◌≡◌, ◌≤◌, IfOk};
ghost use Rattle.wot_first_path.specs.Growth.{IsFoundFrom, TurnsTo};
ghost use Rattle.wot_first_path.specs.Quest.{WhateverTold};
ghost use Rattle.wot_first_path.specs.Reached.{look};

use crate::choose::choose;
use crate::collect::collect;
use crate::node::{Choice, Node};
use crate::quest::Quest;
use crate::reached::Reached;
use std::alloc::Global;
use std::collections::BTreeMap;
use wot_edge::{Path, StepList};
use wot_types::{Fpr, Memory};

/// The path of `size` edges that was found from a root.
pub fn path_from(
    alloc: Global,
    nodes: &BTreeMap<Fpr, Node>,
    choice: &Choice,
    size: u8,
) -> Result<Path, Memory>
    ensures steps { IfOk result (λ path. IsFoundFrom (look nodes.now) choice.now.fpr size path.steps) }
    ensures root { IfOk result (λ path. path.root ≡ choice.now.fpr) }
    ensures amount { IfOk result (λ path. path.amount ≡ choice.now.width) }
{
    let steps = collect(alloc, nodes, &choice.fpr, size)?;
    Ok(Path {
        amount: choice.width,
        root: choice.fpr,
        steps: StepList::new(steps),
    })
}

/// The first path from a root of the last layer, whose suffixes have `size` edges.
pub fn first_of_layer(
    alloc: Global,
    quest: &Quest,
    reached: &Reached,
    size: u8,
) -> Result<Option<Path>, Memory>
    requires { 1 ≤ size }
    ensures { IfOk result (λ found. WhateverTold quest.now (λ q. TurnsTo q size reached.now found)) }
{
    match choose(quest, reached) {
        None => Ok(None),
        Some(choice) => {
            let path = path_from(alloc, &reached.nodes, &choice, size)?;
            Ok(Some(path))
        }
    }
}
