//! Proofs of absence: why no further path is left for a binding, and a check of such a proof that trusts no search.
//!
//! It uses `wot_edge` only, and shares no code with `wot_search`. `wot_command` answers `absence` and `check` with
//! it; `docs/PROFILE.md` says what a proof of absence is.
#![tactic(auto)]

mod asked;
mod checking;
mod claimed;
mod demand;
mod extend;
mod growth;
pub mod laws;
mod left;
mod making;
mod points;
mod show;
mod table;
mod trace;
mod using;

pub use checking::{Checked, check};
pub use claimed::{Claimed, ClaimedStep};
pub use making::absence;
pub use table::{Table, TableIter};
