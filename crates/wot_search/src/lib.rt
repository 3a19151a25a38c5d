//! The search for the next path: one search for the greatest amount, one for the least list, and offers that save both.
//!
//! It uses `wot_first_path`, which does one search, and `wot_edge`, whose definition of the next path it meets.
//! `wot_auth` takes paths from it, and `wot_cache` keeps what was consulted. `docs/SEARCH.md` explains how it works.
#![tactic(auto)]

mod below;
mod next;
mod offered;
mod offers;
mod widest;

pub use below::{Next, next_below};
pub use next::{next_path, next_path_within};
pub use offered::next_offered;
pub use offers::next_paths_within;
pub use wot_first_path::{Asked, Consulted, ConsultedIter, LookFault, Metered, Notes, Unnoted};
pub use wot_reach::{Making, Reach, make_reach};
