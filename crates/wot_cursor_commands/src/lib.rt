//! The commands of cursors: `over`, `next` and `close`. wot_plain defines what each does, wot_cursor keeps the cursors,
//! and wot_explain lists the bindings. It uses wot_plain, so it is proved beside wot_command; wot_machine calls
//! it.
#![tactic(auto)]

mod pacing;

pub use pacing::run_cursor_command;
