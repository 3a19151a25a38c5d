//! The matcher's first pass at a position: which matches of each part end there.
//!
//! It uses `flow`, `leaf` and `stack`, and `specs/Passes.antt`. `matcher` calls it before `advance`.
ghost use Rattle.std.specs.Prelude.{◌≡◌, ◌+◌, ◌<◌, ◌≤◌, true, [], ◌∷◌, length, reverse, vec_len, vec_capacity};
ghost use Rattle.wot_pattern.specs.Nodes.{token_of, tokens_of};
ghost use Rattle.wot_pattern.specs.Passes.{settled_one, settled, top};

use crate::flow::Flow;
use crate::leaf::holds_empty;
use crate::node::Node;
use crate::stack::{put, take_or};

/// Pushes a flow with the empty match.
fn put_empty(ready: &mut Vec<Flow>, ended: bool)
    requires { vec_len ready.old < vec_capacity ready.old }
    ensures items { reverse ready.new.items ≡ record { empty = true; ended = ended } ∷ reverse ready.old.items }
    ensures longer { vec_len ready.new ≡ vec_len ready.old + 1 }
    ensures room { vec_capacity ready.old ≤ vec_capacity ready.new }
{
    let empty = true;
    put(ready, Flow { empty, ended });
}

/// Pops the flows of the trees in this node, pushes the flow of its own tree, and returns the node's new slot.
fn close_one(node: &Node, slot: Flow, ready: &mut Vec<Flow>, first: bool, last: bool) -> Flow
    requires { vec_len ready.old < vec_capacity ready.old }
    ensures slot { result ≡ (settled_one first last (token_of node.now) slot (reverse ready.old.items)).0 }
    ensures ready { reverse ready.new.items ≡
        (settled_one first last (token_of node.now) slot (reverse ready.old.items)).1 }
    ensures longer { vec_len ready.new ≤ vec_len ready.old + 1 }
    ensures room { vec_capacity ready.old ≤ vec_capacity ready.new }
{
    match node {
        Node::Nothing => {
            put_empty(ready, false);
            slot
        }
        Node::Single(leaf) => {
            let empty = holds_empty(leaf, first, last);
            let ended = slot.ended;
            put(ready, Flow { empty, ended });
            slot
        }
        Node::Sequence => {
            let second = take_or(ready, Flow::NONE);
            let left = take_or(ready, Flow::NONE);
            let empty = left.empty && second.empty;
            let ended = second.ended || (left.ended && second.empty);
            put(ready, Flow { empty, ended });
            left
        }
        Node::Either => {
            let second = take_or(ready, Flow::NONE);
            let left = take_or(ready, Flow::NONE);
            let empty = left.empty || second.empty;
            let ended = left.ended || second.ended;
            put(ready, Flow { empty, ended });
            slot
        }
        Node::Star => {
            let inner = take_or(ready, Flow::NONE);
            put_empty(ready, inner.ended);
            inner
        }
        Node::Plus => {
            let inner = take_or(ready, Flow::NONE);
            put(ready, inner);
            inner
        }
        Node::Optional => {
            let inner = take_or(ready, Flow::NONE);
            put_empty(ready, inner.ended);
            slot
        }
    }
}

/// The first pass at a position of the text: which matches of the tree end there. The position may be the text's first
/// or its last.
pub fn closure(
    nodes: &[Node],
    slots: &mut [Flow],
    ready: &mut Vec<Flow>,
    first: bool,
    last: bool,
) -> Flow
    requires slots { length slots.old ≡ length nodes.now }
    requires room { length nodes.now ≤ vec_capacity ready.old }
    ensures slots { slots.new ≡ (settled first last (tokens_of nodes.now) slots.old []).0 }
    ensures through { result ≡ top (settled first last (tokens_of nodes.now) slots.old []).1 }
    ensures room { vec_capacity ready.old ≤ vec_capacity ready.new }
{
    ready.clear();
    for at in 0..nodes.len() {
        let slot = close_one(&nodes[at], slots[at], ready, first, last);
        slots[at] = slot;
    }
    take_or(ready, Flow::NONE)
}
