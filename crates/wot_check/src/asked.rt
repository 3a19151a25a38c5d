//! A question to this crate: the roots, the target and the user ID, and what earlier paths use.
//!
//! `specs/Asked.antt` relates it to the question of `wot_edge`.
use wot_edge::{Roots, Used};
use wot_types::Fpr;

/// A question: the user ID of a target, from these roots, after what earlier paths use.
#[derive(Clone, Copy)]
pub struct Asked<'a> {
    pub roots: &'a Roots,
    pub used: &'a Used,
    pub target: &'a Fpr,
    pub uid: &'a [u8],
}
