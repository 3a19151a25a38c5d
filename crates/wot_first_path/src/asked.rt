//! A question to a search: roots, target, user ID, and the table of reach.
//!
//! `wot_search` relates it to the question of `wot_edge` (`specs/Asked.antt` there). A `Quest` is one search for it.
use wot_edge::Roots;
use wot_reach::Reach;
use wot_types::Fpr;

/// A question to a search: paths from roots to a user ID of the target. Issuers are looked for within their reach only.
#[derive(Clone, Copy)]
pub struct Asked<'a> {
    pub roots: &'a Roots,
    pub reach: &'a Reach,
    pub target: &'a Fpr,
    pub uid: &'a [u8],
}
