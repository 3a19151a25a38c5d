//! Cursors: how far clients have come in their listings, and whether what they list is still the same. A cursor
//! remembers a place and two stamps, never bindings. wot_machine answers the `cursor` commands with it, and decides
//! what a stale cursor means.
#![tactic(auto)]

mod compare;
mod cursor;
mod cursors;
mod stamps;

pub use compare::age;
pub use cursor::Cursor;
pub use cursors::{BeginFault, Cursors};
pub use stamps::{Age, Stamps};
