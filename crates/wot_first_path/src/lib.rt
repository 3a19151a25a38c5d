//! One search: backwards from the target, in layers of shortest suffixes, up to the first layer with a root.
//!
//! It uses `wot_edge` and the tables of `wot_reach`. `wot_search` makes next paths of such searches, and hands
//! on what is noted of them. `docs/SEARCH.md` explains how it works.
#![tactic(auto)]

mod asked;
mod choose;
mod collect;
mod consider;
mod consulted;
mod demand;
mod extend;
mod first_of_layer;
mod first_path;
mod grow;
mod left;
mod metered;
mod node;
mod notes;
mod quest;
mod reached;
mod search;

pub use asked::Asked;
pub use consulted::{Consulted, ConsultedIter};
pub use first_of_layer::path_from;
pub use first_path::{begin, first, first_from};
pub use grow::advance;
pub use left::left_of_root;
pub use metered::{LookFault, Metered};
pub use node::{Choice, Goal, Node};
pub use notes::{Notes, Unnoted};
pub use quest::Quest;
pub use reached::{Reached, node_at};
