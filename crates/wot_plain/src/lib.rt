//! The plain machine: what one line does to what is kept between lines, and what it replies, by the class of its
//! command. The definitions are in `specs/`; the code here sorts commands into classes, replies to refusals, and holds
//! a reply until it is written. wot_command, wot_cursor_commands and wot_watch_commands run commands by these
//! definitions, and wot_laws speaks of them, so all of these use this crate and not one another.
#![tactic(auto)]

mod bindings;
mod class;
mod draft;
mod refusal;

pub use bindings::bind_lines;
pub use class::{
    Change, Class, CursorCommand, Read, ShelfCall, StateCommand, ViewChange, ViewQuestion,
    WatchCommand, classify,
};
pub use draft::{CursorMove, DraftReply, alone, move_cursor, without_move};
pub use refusal::{Missing, Refused, reply_to, reply_to_missing};
