//! What one search looks for: the question, what earlier paths use, and the amount that every edge must have left.
//!
//! `specs/Quest.antt` gives it its meaning. `wot_search` makes quests; everything here reads them.
use crate::asked::Asked;
use crate::node::Goal;
use wot_edge::Used;

/// What a search looks for: paths from a root to a user ID of the target whose root and edges all have at least this
/// residual amount.
#[derive(Clone, Copy)]
pub struct Quest<'a> {
    pub asked: Asked<'a>,
    pub used: &'a Used,
    pub goal: Goal,
    pub least: u8,
}
