//! The generated script: a workload that anyone can reproduce, from a start and a count. It uses wot_random for
//! certificates and wot_script for lines. wot_engine runs it for `wot_cli`'s generating form. The text is fixed for
//! each start and count: any change shows in its digest.
#![tactic(auto)]

mod commands;
mod lines;
mod summary;
mod tally;

pub use lines::script;
pub use summary::{Summary, put_summary};
pub use tally::Tally;
