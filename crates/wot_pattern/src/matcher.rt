//! `Matcher`: whether an expression matches a text, in one walk along the text without backtracking.
//!
//! It uses `closure` and `advance`, and `specs/Meaning.antt`. `wot_scope` makes one for each regular expression
//! and user ID.
ghost use Rattle.std.specs.Prelude.{◌≡◌, ◌+◌, ◌≤◌, ◌↔◌, IsTrue, IfOk, length, vec_capacity};
ghost use Rattle.std.specs.Str.{chars};
ghost use Rattle.wot_pattern.specs.Reading.{Reading};
ghost use Rattle.wot_pattern.specs.Meaning.{Matches};
ghost use Rattle.wot_pattern.specs.Tokens.{tokens};
ghost use Rattle.wot_pattern.specs.Nodes.{tokens_of};

use crate::advance::advance;
use crate::closure::closure;
use crate::flow::Flow;
use crate::node::Node;
use crate::pattern::Pattern;
use std::alloc::Global;
use std::marker::Model;
use wot_types::Memory;

/// A parsed expression with the memory that matching takes. Contracts see the expression's tree.
#[derive(Drop)]
pub struct Matcher {
    nodes: Vec<Node>,
    slots: Vec<Flow>,
    ready: Vec<Flow>,
    begins: Vec<bool>,
}

impl Model for Matcher {
    ghost use Rattle.std.specs.Prelude.{vec_len, vec_capacity};
    ghost use Rattle.wot_pattern.specs.Reading.{Reading};
    ghost use Rattle.wot_pattern.specs.Tokens.{tree, reading_code};
    ghost use Rattle.wot_pattern.specs.Nodes.{tokens_of, OneTree};
    ghost use Rattle.wot_pattern.specs.Room.{HasRoom};

    ghost Value = { Reading };

    ghost coded = { reading_code };

    ghost view = { λ m. tree (tokens_of m.nodes.items) };

    ghost invariant = { λ m. OneTree m.nodes.items
        × HasRoom (vec_len m.nodes) (vec_len m.slots) (vec_capacity m.ready) (vec_capacity m.begins) };
}

impl Matcher {
    /// Reserves all memory that `matches` needs.
    pub fn new(alloc: Global, pattern: Pattern) -> Result<Matcher, Memory>
        ensures same { IfOk result (λ m. m ≡ pattern) }
    {
        let nodes = pattern.into_nodes();
        let count = nodes.len();
        let slots = vec![in alloc; Flow::NONE; count]?;
        let ready = Vec::with_capacity(alloc, count)?;
        let begins = Vec::with_capacity(alloc, count + 1)?;
        Ok(Matcher {
            nodes,
            slots,
            ready,
            begins,
        })
    }

    /// Whether the expression matches some part of the text. Takes time proportional to the length of the expression
    /// times that of the text.
    pub fn matches(&mut self, text: &str) -> bool
        ensures exactly { IsTrue result ↔ Matches (chars text.now) self.old }
        ensures same { self.new ≡ self.old }
    {
        finds(
            &self.nodes,
            &mut self.slots,
            &mut self.ready,
            &mut self.begins,
            text,
        )
    }
}

/// Walks along the text, and keeps at each position which atoms end there.
fn finds(
    nodes: &[Node],
    slots: &mut [Flow],
    ready: &mut Vec<Flow>,
    begins: &mut Vec<bool>,
    text: &str,
) -> bool
    requires slots { length slots.old ≡ length nodes.now }
    requires ready { length nodes.now ≤ vec_capacity ready.old }
    requires begins { length nodes.now + 1 ≤ vec_capacity begins.old }
    ensures exactly { (r : Reading) → tokens_of nodes.now ≡ tokens r → (IsTrue result ↔ Matches (chars text.now) r) }
    ensures ready { vec_capacity ready.old ≤ vec_capacity ready.new }
    ensures begins { vec_capacity begins.old ≤ vec_capacity begins.new }
{
    slots.fill(Flow::NONE);
    let mut rest = text.chars();
    let mut first = true;
    'places: loop {
        let next = rest.next();
        let through = closure(nodes, slots, ready, first, next.is_none());
        if through.empty || through.ended {
            return true;
        }
        let Some(character) = next else {
            return false;
        };
        advance(nodes, slots, begins, character);
        first = false;
    }
}
