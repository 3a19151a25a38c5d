//! The engine and its caches: one keyring, and views over it, each with a time and trust roots. For each view it keeps
//! a network, answers and a table of reach, so that a question costs what changed. wot_machine runs every command
//! against it. What is kept is speed only: no definition of a reply mentions it.
#![tactic(auto)]

mod basis;
mod dump;
mod engine;
pub mod laws;
mod networks;
mod present;
mod revisions;
mod view;
mod views;

pub use basis::Basis;
pub use engine::Engine;
pub use view::{NoView, View, ViewFault};
pub use wot_answers::{AskFault, Asked, KeptAnswer, Looked, Parts};
