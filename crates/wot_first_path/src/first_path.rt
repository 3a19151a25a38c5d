//! The first path: layer after layer from the target, up to the first layer with a root.
//!
//! It uses `grow` and `first_of_layer`, and `specs/Growth.antt`. `wot_search` runs it twice, first for the greatest
//! amount and then for the least list.
ghost use Rattle.std.specs.Prelude.{◌≡◌, ◌≤◌, ℕ, List, [], ◌∷◌, IfOk};
ghost use Rattle.wot_edge.specs.Record.{IsRecord};
ghost use Rattle.wot_first_path.specs.Growth.{IsAfterPath, IsSmall, IsResult, IsLookedBy};
ghost use Rattle.wot_first_path.specs.Looked.{Gains, Widens};
ghost use Rattle.wot_first_path.specs.Asked.{LeadsToAsked};
ghost use Rattle.wot_first_path.specs.Quest.{LeadsOn, quest_of};

use crate::first_of_layer::first_of_layer;
use crate::grow::advance;
use crate::notes::Notes;
use crate::quest::Quest;
use crate::reached::Reached;
use std::alloc::Global;
use std::collections::BTreeMap;
use wot_edge::{Path, Roads};
use wot_types::{Fpr, Memory};

/// Before the first layer: only the target.
pub fn begin(alloc: Global, target: &Fpr) -> Result<Reached, Memory>
    ensures nodes { IfOk result (λ reached. reached.nodes.entries ≡ []) }
    ensures layer { IfOk result (λ reached. reached.layer.items ≡ target.now ∷ []) }
{
    let mut layer: Vec<Fpr> = Vec::new(alloc);
    layer.push(*target)?;
    Ok(Reached {
        nodes: BTreeMap::new(alloc),
        layer,
        places: Vec::new(alloc),
    })
}

/// Finds the first path with the wanted residual amount: one with the fewest edges, and among these the best by the
/// goal.
pub fn first<R: Roads, N: Notes>(
    alloc: Global,
    roads: &R,
    quest: &Quest,
    notes: &mut N,
) -> Result<Option<Path>, Memory>
    requires lawful { (id : List ℕ) → IsRecord (R.network roads.now id) }
    requires onward { LeadsOn (R.network roads.now) quest.now }
    requires small { IsSmall (quest_of (R.network roads.now) quest.now) }
    ensures first { IfOk result (λ found. IsResult (quest_of (R.network roads.now) quest.now) found) }
    ensures looked { IfOk result (IsLookedBy (quest_of (R.network roads.now) quest.now) (N.noted notes.new)) }
    ensures grows { Widens (N.noted notes.old) (N.noted notes.new) }
    ensures falls { N.budget notes.new ≤ N.budget notes.old }
    ensures paid { N.total notes.new ≤ N.total notes.old }
    ensures leads { Gains (LeadsToAsked (R.network roads.now) quest.now.asked) (N.noted notes.old) (N.noted notes.new) }
{
    let mut reached = begin(alloc, quest.asked.target)?;
    first_from(alloc, roads, quest, &mut reached, notes)
}

/// Finds the first path, starting from the target. Goes on layer by layer up to the first one with a root, and leaves
/// what it found in `reached`.
pub fn first_from<R: Roads, N: Notes>(
    alloc: Global,
    roads: &R,
    quest: &Quest,
    reached: &mut Reached,
    notes: &mut N,
) -> Result<Option<Path>, Memory>
    requires lawful { (id : List ℕ) → IsRecord (R.network roads.now id) }
    requires onward { LeadsOn (R.network roads.now) quest.now }
    requires small { IsSmall (quest_of (R.network roads.now) quest.now) }
    requires nodes { reached.old.nodes.entries ≡ [] }
    requires layer { reached.old.layer.items ≡ quest.now.asked.target.now ∷ [] }
    ensures first { IfOk result (λ found. IsResult (quest_of (R.network roads.now) quest.now) found) }
    ensures after { IfOk result (IsAfterPath (quest_of (R.network roads.now) quest.now) reached.new
        (N.noted notes.new)) }
    ensures looked { IfOk result (IsLookedBy (quest_of (R.network roads.now) quest.now) (N.noted notes.new)) }
    ensures grows { Widens (N.noted notes.old) (N.noted notes.new) }
    ensures falls { N.budget notes.new ≤ N.budget notes.old }
    ensures paid { N.total notes.new ≤ N.total notes.old }
    ensures leads { Gains (LeadsToAsked (R.network roads.now) quest.now.asked) (N.noted notes.old) (N.noted notes.new) }
{
    'layers: for size in 0..255u8 {
        advance(alloc, roads, quest, size, reached, notes)?;
        if reached.layer.is_empty() {
            return Ok(None);
        }
        match first_of_layer(alloc, quest, reached, size + 1)? {
            None => {}
            Some(path) => return Ok(Some(path)),
        }
    }
    Ok(None)
}
