//! The values of a search: its goal, nodes, choices and hints. They have no invariants; `specs/Layer.antt` says
//! what a search knows by its nodes.
use wot_edge::Step;
use wot_types::Fpr;

/// What a search looks for among the suffixes with the fewest edges.
#[derive(Clone, Copy, Debug, PartialEq, Eq)]
pub enum Goal {
    /// The greatest amount.
    Widest,
    /// The least list.
    Least,
}

/// What a search keeps of an issuer's suffix: its first edge, how many edges it has, and their least residual amount.
/// The rest of the suffix is kept at the first edge's target.
#[derive(Clone, Copy, Debug, PartialEq, Eq)]
pub struct Node {
    pub step: Step,
    pub size: u8,
    pub width: u8,
}

/// A root, and what a path from it would have.
#[derive(Clone, Copy, Debug, PartialEq, Eq)]
pub struct Choice {
    pub fpr: Fpr,
    pub width: u8,
}

/// What a table of reach says about an edge: the place where its issuer's number is found at once, and whether the edge
/// is known to be usable.
#[derive(Clone, Copy)]
pub struct Hint {
    pub place: usize,
    pub usable: bool,
}
