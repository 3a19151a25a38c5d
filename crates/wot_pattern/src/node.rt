//! The nodes of a parsed expression, in postfix order: each comes after those that it is made of.
//!
//! `builder` writes them and both passes of the matcher read them; `specs/Nodes.antt` says which tree they stand for.
use crate::item::Item;

/// An atom other than a group.
#[derive(Drop)]
pub enum Leaf {
    Exactly(char),
    Any,
    Start,
    End,
    Range { negated: bool, items: Vec<Item> },
}

/// A node of a tree. It comes after the nodes that it is made of.
#[derive(Drop)]
pub enum Node {
    Nothing,
    Single(Leaf),
    Sequence,
    Either,
    Star,
    Plus,
    Optional,
}
