//! Edges, trust roots, paths and what they use: what a valid path is, which path is next, and what an answer is.
//!
//! It uses `wot_types`. `wot_search` finds next paths, `wot_auth` answers and `wot_check` checks by these
//! definitions, and `wot_live` makes the edges.
#![tactic(auto)]

mod demand;
mod edge;
pub mod laws;
mod left;
mod lists;
mod maps;
mod pairs;
mod path;
pub mod plain;
mod roads;
mod roots;
mod sums;
mod used;

pub use demand::{Demand, demand_at, is_same, meets};
pub use edge::{Edge, EdgeFacts};
pub use left::{left_of_step, remaining, step_from};
pub use lists::{PathList, StepList};
pub use path::{Path, Step};
pub use roads::Roads;
pub use roots::{Roots, RootsIter};
pub use used::Used;
