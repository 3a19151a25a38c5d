//! What the functions of one layer share: the network, the quest, and how many edges come after those that they
//! consider.
//!
//! `grow` makes one for each layer. `extend` and `consider` read it.
use crate::quest::Quest;
use wot_edge::Demand;

/// One layer of a search: over this network, for this quest, in front of the suffixes that have `size` edges.
#[derive(Drop)]
pub struct Search<'a, R> {
    pub roads: &'a R,
    pub quest: &'a Quest<'a>,
    pub size: u8,
}

/// What an edge is considered in front of: what is demanded of it there, and the width of the suffixes.
#[derive(Clone, Copy)]
pub struct Rest {
    pub demand: Demand,
    pub width: u8,
}
