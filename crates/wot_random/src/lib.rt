//! Random keys, user IDs and certifications, which a start and a count determine. It uses wot_key, wot_packet and
//! wot_verdict for what they consist of, and knows no command and no reply. wot_gen makes a script of them.
#![tactic(auto)]

mod bodies;
mod certification;
mod identity;
mod keys;
mod words;

pub use certification::{Certification, certifications};
pub use identity::Identity;
pub use keys::identities;
pub use words::Words;
