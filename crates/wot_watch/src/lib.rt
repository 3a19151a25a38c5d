//! Watches: questions whose amounts are reported again to a client when they change. This crate only remembers the
//! questions and the amounts last reported. wot_watch_commands asks the questions after each line and writes watch
//! lines.
#![tactic(auto)]

mod watch;
mod watches;

pub use watch::Watch;
pub use watches::{PutFault, Watches, WatchesIter};
