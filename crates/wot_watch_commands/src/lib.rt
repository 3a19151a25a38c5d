//! The commands of watches, and the watch lines after each line. wot_plain defines both, wot_watch keeps the watches,
//! and wot_cache answers their questions. It uses wot_plain, so it is proved beside wot_command; wot_machine calls
//! it.
#![tactic(auto)]

mod watching;

pub use watching::{are_settled, tell_all, watch, watch_lines};
