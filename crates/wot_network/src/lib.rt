//! The certification network of a keyring at a time: the edges into each certificate, made again only for those that
//! changed. It uses wot_live for the edges of one certificate and the stamps of wot_keyring to know which are stale.
//! wot_cache keeps one network for each view, and wot_search walks over it through `NetRoads`.
#![tactic(auto)]

pub mod laws;
mod line;
mod making;
mod network;
mod refreshing;
mod roads;
mod table;
mod user_ids;

pub use network::Network;
pub use roads::NetRoads;
