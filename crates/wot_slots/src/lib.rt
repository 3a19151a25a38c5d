//! Values by signature number, most of them in a row of slots, so that a lookup needs no walk over a tree. They can
//! also be listed in the order of their numbers.
//!
//! It uses `wot_types` alone. `wot_verdict` keeps verdicts and the fingerprints of certificates here.
#![tactic(auto)]

mod above;
mod moving;
mod near;
mod row;
mod slots;

pub use above::number_is_whole;
pub use row::Row;
pub use slots::Slots;
