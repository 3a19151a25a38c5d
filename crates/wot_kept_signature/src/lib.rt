//! A signature as it is kept in a certificate: its body, its number, what it says, and the policy's mark, in one piece
//! of memory.
//!
//! It uses `wot_signature`, which reads what a body says, and `wot_verdict` for the number. `wot_component` has
//! sorted lists of these signatures.
#![tactic(auto)]

mod issuer_place;
mod kept_facts;
mod new_octets;
mod octets;
mod said;
mod shape;
mod sig;
mod single_facts;

pub use said::{Terms, Times};
pub use sig::Sig;
