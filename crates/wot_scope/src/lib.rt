//! Whether the scope of a signature holds for a user ID (RFC 9580, section 5.2.3.22).
//!
//! It uses `wot_pattern` and the regular expressions that `wot_signature` finds. `wot_network` asks it for each
//! edge with a limited scope.
#![tactic(auto)]

pub mod laws;
mod scope;

pub use scope::in_scope;
