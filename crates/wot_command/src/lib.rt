//! Commands: each one, but for those of cursors and watches, is run on the engine and the certificate directory, and
//! gets its reply. One file for each family. It uses wot_plain for what each does, and the layers below for how.
//! wot_machine calls `run_state_command` for them.
#![tactic(auto)]

mod absence;
mod answer;
mod bindings;
mod checking;
mod commands;
mod fresh;
mod listing;
mod load;
mod pending;
mod reasons;
mod state;
mod store;
mod stored;

pub use fresh::dump_makes_the_state_anew;
pub use state::run_state_command;
