//! What is asked from a view, as one value: wot_command and wot_watch_commands make it of a line's question, and the
//! search for an answer hands it on from `Engine::ask` to the kept answers. It uses wot_types alone; a further part of
//! a question is a field here.
use wot_types::Fpr;

/// How confident one can be that a user ID belongs to a target, up to the wanted amount.
#[derive(Clone, Copy)]
pub struct Asked<'a> {
    pub target: &'a Fpr,
    pub wanted: u32,
    pub uid: &'a [u8],
}
