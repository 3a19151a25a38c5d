//! The table of reach: how far before a target each key may come on a path from the current roots.
//!
//! It uses `wot_edge`. `wot_search` skips what a table excludes, and hands on its names; `wot_cache` keeps tables.
//! A table changes no answer, only the time, and `docs/SEARCH.md` explains it.
#![tactic(auto)]

mod checking;
mod making;
mod numbers;
mod onward;
mod reach;
mod reaching;
mod rows;
mod slots;

pub use making::{Making, make_reach};
pub use onward::Onward;
pub use reach::Reach;
