//! Signature numbers, and what is kept by them: verdicts, and on which certificate each signature is.
//!
//! It uses `sha2`, `wot_slots` and `wot_types`. `wot_cert` numbers each signature that it holds; `wot_index`
//! notes on which certificate each is, `wot_keyring` sets the verdicts, and edges exist only for signatures with a
//! verdict.
#![tactic(auto)]

mod keeping;
mod listing;
mod noted;
mod number;
mod verdict;
mod verdicts;

pub use number::{Numbering, number_of};
pub use verdict::Verdict;
pub use verdicts::{Verdicts, VerdictsIter};
