//! Answers: next paths, one after another, until their sum reaches the wanted amount.
//!
//! It uses `wot_search`, and its contracts are the definition of an answer in `wot_edge`. `wot_cache` asks it and
//! keeps the answers.
#![tactic(auto)]

mod answer;
mod ask;
pub mod laws;
mod sum;
mod take;

pub use answer::Answer;
pub use ask::{authenticate, authenticate_metered, authenticate_within};
pub use sum::sum_within;
