//! What the search demands of an edge, and which of two suffixes it keeps.
//!
//! It uses `wot_edge`, where the rules of depth and user ID are, `wot_reach`, and `specs/Demand.antt`.
//! Usability and scopes are in `consider`.
ghost use Rattle.std.specs.Prelude.{◌≡◌, ◌<◌, ℕ, List, nat_le, nat_lt};
ghost use Rattle.wot_edge.specs.Demand.{demand_of};
ghost use Rattle.wot_first_path.specs.Demand.{candidate_of};
ghost use Rattle.wot_first_path.specs.Quest.{quest_of};
ghost use Rattle.wot_first_path.specs.Layer.{is_better, is_kept, link_cmp};
ghost use Rattle.wot_edge.specs.Record.{Record};

use crate::node::{Goal, Node};
use crate::quest::Quest;
use std::cmp::Ordering;
use wot_edge::{Demand, EdgeFacts, Roads, Step, demand_at, left_of_step, meets, step_from};
use wot_types::compare_fprs;

/// What the search demands of edges with `size` edges after them.
pub fn demand<R: Roads>(roads: &R, quest: &Quest, size: u8) -> Demand
    ensures { result ≡ demand_of (quest_of (R.network roads.now) quest.now).question size }
{
    demand_at(roads, quest.asked.target, quest.asked.uid, size)
}

/// Whether the issuer of an edge may come this far before the target.
fn reaches(quest: &Quest, size: u8, place: usize, edge: &EdgeFacts) -> bool
    ensures { (network : List ℕ → Record) → result ≡ nat_lt size ((quest_of network quest.now).reach edge.now.issuer) }
{
    size < quest.asked.reach.get_near(place, &edge.issuer)
}

/// Whether a residual amount is enough for the quest.
fn suffices(quest: &Quest, left: u8) -> bool
    ensures { result ≡ nat_le quest.now.least left }
{
    quest.least <= left
}

/// The node for an edge in front of a suffix with this number of edges and this width. `None` if its issuer may not
/// come this far, if it doesn't meet the demand, or if too little is left of it. The issuer's reach is found at once if
/// it is at this place of the table.
pub fn candidate(
    quest: &Quest,
    demand: Demand,
    size: u8,
    width: u8,
    place: usize,
    edge: &EdgeFacts,
) -> Option<Node>
    requires { size < 255 }
    ensures { (network : List ℕ → Record)
        → result ≡ candidate_of (quest_of network quest.now) demand size width edge.now }
{
    // Few edges meet the demand, and the test looks at the edge only.
    if !meets(quest.asked.target, demand, edge) {
        return None;
    }
    if !reaches(quest, size, place, edge) {
        return None;
    }
    let step = step_from(edge);
    let left = left_of_step(quest.used, &step);
    if !suffices(quest, left) {
        return None;
    }
    Some(Node {
        step,
        size: size + 1,
        width: left.min(width),
    })
}

fn compare_links(a: &Step, b: &Step) -> Ordering
    ensures { result ≡ link_cmp a.now b.now }
{
    match compare_fprs(&a.target, &b.target) {
        Ordering::Less => Ordering::Less,
        Ordering::Greater => Ordering::Greater,
        Ordering::Equal => a.uid.cmp(&b.uid),
    }
}

fn better(goal: Goal, a: &Node, b: &Node) -> bool
    ensures { result ≡ is_better goal a.now b.now }
{
    match goal {
        Goal::Widest => b.width < a.width,
        Goal::Least => compare_links(&a.step, &b.step).is_lt(),
    }
}

/// Whether a node is kept, given the one that was found for its issuer before, if any.
pub fn keeps(goal: Goal, node: &Node, old: Option<Node>) -> bool
    ensures { result ≡ is_kept goal node.now old }
{
    match old {
        None => true,
        Some(old) => old.size == node.size && better(goal, node, &old),
    }
}
