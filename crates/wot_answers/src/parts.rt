//! What a listing reads: the keyring, the roads at a view's time, the view's roots, and the time. wot_explain and the
//! replies of wot_machine take it apart.
use wot_edge::Roots;
use wot_keyring::Keyring;
use wot_network::NetRoads;

/// What listings and explanations need from an open view: the keyring, its roads at the view's time, the view's roots,
/// and its time in seconds since 1970.
#[derive(Drop)]
pub struct Parts<'a> {
    pub keyring: &'a Keyring,
    pub roads: NetRoads<'a>,
    pub roots: &'a Roots,
    pub t: u32,
}
