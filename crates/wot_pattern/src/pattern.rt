//! `Pattern`: a parsed regular expression. Contracts see its tree (`specs/Reading.antt`), and not its nodes. `parser`
//! makes one, and `Matcher` takes it.
ghost use Rattle.std.specs.Prelude.{◌≡◌};
ghost use Rattle.wot_pattern.specs.Reading.{Reading};
ghost use Rattle.wot_pattern.specs.Nodes.{tokens_of};
ghost use Rattle.wot_pattern.specs.Tokens.{tokens};

use crate::node::Node;
use std::marker::Model;

/// A parsed regular expression. Contracts see its tree.
#[derive(Drop)]
pub struct Pattern {
    nodes: Vec<Node>,
}

impl Model for Pattern {
    ghost use Rattle.wot_pattern.specs.Reading.{Reading};
    ghost use Rattle.wot_pattern.specs.Tokens.{tree, reading_code};
    ghost use Rattle.wot_pattern.specs.Nodes.{tokens_of, OneTree};

    ghost Value = { Reading };

    ghost coded = { reading_code };

    ghost view = { λ p. tree (tokens_of p.nodes.items) };

    ghost invariant = { λ p. OneTree p.nodes.items };
}

impl Pattern {
    /// The expression with these nodes, which are those of one tree.
    pub(crate) fn from_nodes(nodes: Vec<Node>) -> Pattern
        requires { (r : Reading) × (tokens_of nodes.items ≡ tokens r) }
        ensures { (r : Reading) → tokens_of nodes.items ≡ tokens r → result ≡ r }
    {
        Pattern { nodes }
    }

    /// The nodes, each after those that it is made of.
    pub(crate) fn into_nodes(self) -> Vec<Node>
        ensures { tokens_of result.items ≡ tokens self }
    {
        let Pattern { nodes } = self;
        nodes
    }
}
