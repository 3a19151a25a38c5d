//! Tables by name, with a limit on their length. wot_cursor keeps cursors in one, and wot_watch watches: what holds of
//! both is said and proved here once. It uses std's map and the names of wot_types.
#![tactic(auto)]

mod table;

pub use table::{Table, put};
