//! What a signature of version 4 or 6 says (RFC 9580, section 5.2), read from its body in place: no octet is copied.
//!
//! It uses `wot_subpacket` and `wot_types`. `wot_cert`, `wot_standing` and `wot_live` decide by these facts, and
//! `wot_scope` takes regular expressions from here.
#![tactic(auto)]

mod facts;
mod hints;
mod known;
pub mod laws;
mod notes;
mod parts;
mod patterns;
mod read;
mod read_body;
mod texts;

pub use facts::SigFacts;
pub use hints::hint;
pub use patterns::scopes;
pub use read::read_signature;
pub use texts::Scopes;
