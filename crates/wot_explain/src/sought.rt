//! What a listing looks for, and which piece of the list is wanted. `listing` and `piece` hand it from call to call.
use wot_edge::Roots;
use wot_search::Reach;
use wot_types::Place;

/// Which bindings are listed: those authenticated to the wanted amount from these roots. No search goes further than an
/// issuer's reach.
#[derive(Clone, Copy)]
pub struct Sought<'a> {
    pub roots: &'a Roots,
    pub reach: &'a Reach,
    pub wanted: u32,
}

/// Which piece of such a list is wanted: the first `count` bindings that come after a place. Without a place it is the
/// first of all.
#[derive(Clone, Copy)]
pub struct Page<'a> {
    pub sought: Sought<'a>,
    pub after: Option<&'a Place>,
    pub count: u32,
}
