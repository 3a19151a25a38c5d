//! Signatures and components of certificates, and sorted lists of both: merged, marked, counted and weighed.
//!
//! It uses `wot_kept_signature` for a signature by itself, and `wot_packet`, `wot_verdict` and `wot_policy`.
//! `wot_cert` makes certificates of these lists, and hands on the public types.
#![tactic(auto)]

pub mod adds;
pub mod growing;
pub mod growth;
pub mod judge;
pub mod measure;
mod merging;
pub mod part;
pub mod shrinking;
pub mod sig;
mod sizes;

pub use adds::Adds;
pub use growth::PartStep;
pub use part::Part;
pub use wot_kept_signature::Sig;
