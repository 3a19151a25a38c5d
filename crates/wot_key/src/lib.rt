//! Public keys of version 4 and 6, their fingerprints and key IDs.
//!
//! It uses `sha1` and `sha2` of the kit and `wot_types`. `wot_cert` reads the primary key of each certificate
//! and its subkeys through it.
#![tactic(auto)]

mod digest;
mod key;
pub mod laws;

pub use digest::{fingerprint, key_id};
pub use key::{Key, read_key};
