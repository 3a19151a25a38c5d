//! The machine that answers lines: parse, run, reply, and the watch lines after it. wot_command runs the commands of
//! the state, wot_cursor_commands those of cursors, and wot_watch_commands those of watches, each by the definitions of
//! wot_plain. wot_engine gives it the lines of an input.
#![tactic(auto)]

mod counts;
mod dispatch;
mod machine;

pub use machine::Machine;
pub use wot_command::dump_makes_the_state_anew;
pub use wot_plain::{CursorMove, DraftReply};
