//! The matcher's second pass at a position: which atoms take the character there.
//!
//! It uses `leaf` and `stack`, and `specs/Passes.antt`. `matcher` calls it after `closure`.
ghost use Rattle.std.specs.Prelude.{◌≡◌, ◌+◌, ◌<◌, ◌≤◌, [], ◌∷◌, true, length, max, reverse, vec_len, vec_capacity};
ghost use Rattle.wot_pattern.specs.Nodes.{token_of, tokens_of};
ghost use Rattle.wot_pattern.specs.Passes.{advanced_one, advanced};

use crate::flow::Flow;
use crate::leaf::takes;
use crate::node::Node;
use crate::stack::{put, take_or};

/// Pops whether this node's tree may begin here, pushes whether the trees in it may, and returns the node's new slot.
fn advance_one(node: &Node, slot: Flow, begins: &mut Vec<bool>, character: char) -> Flow
    requires room { vec_len begins.old < vec_capacity begins.old }
    requires two { 2 ≤ vec_capacity begins.old }
    ensures slot { result ≡ (advanced_one character (token_of node.now) slot (reverse begins.old.items)).0 }
    ensures begins { reverse begins.new.items ≡
        (advanced_one character (token_of node.now) slot (reverse begins.old.items)).1 }
    ensures longer { vec_len begins.new ≤ max (vec_len begins.old) 1 + 1 }
    ensures room { vec_capacity begins.old ≤ vec_capacity begins.new }
{
    let here = take_or(begins, false);
    match node {
        Node::Nothing => slot,
        Node::Single(leaf) => {
            let ended = here && takes(leaf, character);
            Flow {
                empty: false,
                ended,
            }
        }
        Node::Sequence => {
            put(begins, here);
            put(begins, slot.ended || (here && slot.empty));
            slot
        }
        Node::Either => {
            put(begins, here);
            put(begins, here);
            slot
        }
        Node::Star | Node::Plus => {
            put(begins, here || slot.ended);
            slot
        }
        Node::Optional => {
            put(begins, here);
            slot
        }
    }
}

/// The second pass at a position of the text: marks the atoms that may begin there and take the character.
pub fn advance(nodes: &[Node], slots: &mut [Flow], begins: &mut Vec<bool>, character: char)
    requires slots { length slots.old ≡ length nodes.now }
    requires room { length nodes.now + 1 ≤ vec_capacity begins.old }
    ensures slots { slots.new ≡ (advanced character (tokens_of nodes.now) slots.old (true ∷ [])).0 }
    ensures room { vec_capacity begins.old ≤ vec_capacity begins.new }
{
    begins.clear();
    put(begins, true);
    for at in (0..nodes.len()).rev() {
        let slot = advance_one(&nodes[at], slots[at], begins, character);
        slots[at] = slot;
    }
}
