//! Which root of the last layer a path is taken from.
//!
//! It uses `reached` and `specs/Choice.antt`. `first_of_layer` makes the path from the chosen root.
ghost use Rattle.std.specs.Prelude.{◌≡◌, ℕ, List, None, Option};
ghost use Rattle.wot_edge.specs.Record.{Record};
ghost use Rattle.wot_first_path.specs.Quest.{quest_of};
ghost use Rattle.wot_first_path.specs.Choice.{is_ahead, ahead_of, taken, chosen};
ghost use Rattle.wot_first_path.specs.Reached.{look};

use crate::left::left_of_root;
use crate::node::{Choice, Goal, Node};
use crate::quest::Quest;
use crate::reached::{Reached, node_at, width_of};
use std::collections::BTreeMap;
use wot_types::{Fpr, compare_fprs};

fn is_before(goal: Goal, a: &Choice, b: &Choice) -> bool
    ensures { result ≡ is_ahead goal a.now b.now }
{
    match goal {
        Goal::Widest => b.width < a.width,
        Goal::Least => compare_fprs(&a.fpr, &b.fpr).is_lt(),
    }
}

fn first_of(goal: Goal, a: Choice, best: Option<Choice>) -> Choice
    ensures { result ≡ ahead_of goal a best }
{
    match best {
        None => a,
        Some(b) => { if is_before(goal, &a, &b) { a } else { b } }
    }
}

fn take(
    quest: &Quest,
    nodes: &BTreeMap<Fpr, Node>,
    best: Option<Choice>,
    fpr: &Fpr,
) -> Option<Choice>
    ensures { (network : List ℕ → Record) → result ≡ taken (quest_of network quest.now) (look nodes.now) best fpr.now }
{
    let left = left_of_root(quest, fpr);
    if left < quest.least {
        return best;
    }
    let choice = Choice {
        fpr: *fpr,
        width: left.min(width_of(node_at(nodes, fpr))),
    };
    Some(first_of(quest.goal, choice, best))
}

/// The root of the last layer to take; `None` if none has the wanted residual amount.
pub fn choose(quest: &Quest, reached: &Reached) -> Option<Choice>
    ensures { (network : List ℕ → Record)
        → result ≡ chosen (quest_of network quest.now) (look reached.now.nodes) None reached.now.layer.items }
{
    let mut best: Option<Choice> = None;
    'layer: for fpr in &reached.layer {
        best = take(quest, &reached.nodes, best, fpr);
    }
    best
}
