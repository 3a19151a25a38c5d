//! One edge in the search: whether it may come before a suffix, and whether it is kept for its issuer.
//!
//! It uses `demand` and `reached`, and `specs/Growth.antt`. `extend` calls it for each edge, so most of a
//! search's time is spent here.
ghost use Rattle.std.specs.Prelude.{◌≡◌, ◌≤◌, ◌<◌, ℕ, List, true, IfOk, OnOk};
ghost use Rattle.wot_edge.specs.Demand.{demand_of};
ghost use Rattle.wot_edge.specs.Record.{Has, IsRecord, EachRow, edges_into};
ghost use Rattle.wot_first_path.specs.Quest.{WhateverTold};
ghost use Rattle.wot_first_path.specs.Search.{quest_in, record_in};
ghost use Rattle.wot_first_path.specs.Reached.{look};
ghost use Rattle.wot_first_path.specs.Growth.{wanted_of, may_stand_of, PutsIfStands, TriesEdge};
ghost use Rattle.wot_first_path.specs.Looked.{Gains, Widens};
ghost use Rattle.wot_reach.specs.Onward.{IsUsable};

use crate::demand::{candidate, keeps};
use crate::node::{Hint, Node};
use crate::notes::Notes;
use crate::quest::Quest;
use crate::reached::{Reached, node_at, put};
use crate::search::{Rest, Search};
use std::collections::BTreeMap;
use wot_edge::{Edge, EdgeFacts, Roads};
use wot_types::{Fpr, Memory};

/// The node to keep for an edge, if the edge may come there.
fn wanted<R: Roads>(
    search: &Search<'_, R>,
    rest: Rest,
    place: usize,
    edge: &EdgeFacts,
    nodes: &BTreeMap<Fpr, Node>,
) -> Option<Node>
    requires { search.now.size < 255 }
    ensures { WhateverTold search.now.quest.now
        (λ q. result ≡ wanted_of q (look nodes.now) rest.demand search.now.size rest.width edge.now) }
{
    match candidate(
        search.quest,
        rest.demand,
        search.size,
        rest.width,
        place,
        edge,
    ) {
        None => None,
        Some(node) => {
            if keeps(search.quest.goal, &node, node_at(nodes, &node.step.issuer)) {
                Some(node)
            } else {
                None
            }
        }
    }
}

/// Whether an edge is usable. The network isn't asked if that is known.
fn is_usable<R: Roads>(roads: &R, known: bool, edge: &Edge) -> bool
    requires row { (id : List ℕ) → Has (edges_into (R.network roads.now id) edge.now.target) edge.now }
    requires known { known ≡ true → IsUsable (R.network roads.now) edge.now }
    ensures usable { (id : List ℕ) → EachRow (R.network roads.now id) edge.now (λ row. row.usable ≡ result) }
{
    if known {
        return true;
    }
    roads.usable(edge)
}

/// Whether an edge is usable, and its scope holds unless it is a path's last edge.
fn may_stand<R: Roads>(
    roads: &R,
    quest: &Quest,
    size: u8,
    known: bool,
    edge: &Edge,
) -> Result<bool, Memory>
    requires row { (id : List ℕ) → Has (edges_into (R.network roads.now id) edge.now.target) edge.now }
    requires known { known ≡ true → IsUsable (R.network roads.now) edge.now }
    ensures { IfOk result (λ may. EachRow (R.network roads.now quest.now.asked.uid.now) edge.now
        (λ row. may_stand_of size row ≡ may)) }
{
    if !is_usable(roads, known, edge) {
        return Ok(false);
    }
    if size == 0 {
        return Ok(true);
    }
    roads.scope(edge, quest.asked.uid)
}

/// Keeps a node for its issuer if its edge may come there.
fn keep<R: Roads, N: Notes>(
    search: &Search<'_, R>,
    hint: Hint,
    edge: &Edge,
    node: Node,
    reached: &mut Reached,
    notes: &mut N,
) -> Result<(), Memory>
    requires row { (id : List ℕ) → Has (edges_into (R.network search.now.roads.now id) edge.now.target) edge.now }
    requires known { hint.usable ≡ true → IsUsable (R.network search.now.roads.now) edge.now }
    ensures put { OnOk result (PutsIfStands (record_in R.network search.now) search.now.size edge.now
        reached.old reached.new node) }
    ensures has { OnOk result (N.noted notes.new node.step.issuer) }
    ensures grows { Widens (N.noted notes.old) (N.noted notes.new) }
    ensures falls { N.budget notes.new ≤ N.budget notes.old }
    ensures paid { N.total notes.new ≤ N.total notes.old }
    ensures gains { Gains (λ fpr. fpr ≡ node.step.issuer) (N.noted notes.old) (N.noted notes.new) }
{
    notes.note(&node.step.issuer)?;
    let quest = search.quest;
    if may_stand(search.roads, quest, search.size, hint.usable, edge)? {
        return put(reached, node, quest.asked.reach.issuer_place(hint.place));
    }
    Ok(())
}

/// Considers an edge in front of the suffixes. The issuer's reach, and whether the edge is usable, are looked up only
/// if the hint doesn't say.
pub fn consider<R: Roads, N: Notes>(
    search: &Search<'_, R>,
    rest: Rest,
    hint: Hint,
    edge: &Edge,
    reached: &mut Reached,
    notes: &mut N,
) -> Result<(), Memory>
    requires row { (id : List ℕ) → Has (edges_into (R.network search.now.roads.now id) edge.now.target) edge.now }
    requires known { hint.usable ≡ true → IsUsable (R.network search.now.roads.now) edge.now }
    requires lawful { (id : List ℕ) → IsRecord (R.network search.now.roads.now id) }
    requires demand { rest.demand ≡ demand_of (quest_in R.network search.now).question search.now.size }
    requires size { search.now.size < 255 }
    ensures all { OnOk result (TriesEdge N.noted R.network search.now rest.width edge.now
        reached.old reached.new notes.old notes.new) }
    ensures grows { Widens (N.noted notes.old) (N.noted notes.new) }
    ensures falls { N.budget notes.new ≤ N.budget notes.old }
    ensures paid { N.total notes.new ≤ N.total notes.old }
    ensures gains { Gains (λ fpr. fpr ≡ edge.now.issuer) (N.noted notes.old) (N.noted notes.new) }
{
    match wanted(search, rest, hint.place, &edge.facts(), &reached.nodes) {
        None => Ok(()),
        Some(node) => {
            keep(search, hint, edge, node, reached, notes)?;
            Ok(())
        }
    }
}
