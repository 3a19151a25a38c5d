//! Values that every crate speaks of: fingerprints, signature numbers, user IDs, names, limits, the count of edges, and
//! the error of a failed allocation.
//!
//! This is the lowest crate and uses `hex` and std alone, so a change to any contract here proves every other
//! crate again.
#![tactic(auto)]

mod digits;
mod fpr;
pub mod laws;
mod limits;
mod memory;
mod name;
mod number;
mod octets;
mod place;
mod steps;
mod user_id;
mod view_name;

pub use fpr::{Fpr, compare_fprs};
pub use limits::{Limit, Limits};
pub use memory::Memory;
pub use name::Name;
pub use number::{SigNumber, compare_numbers};
pub use place::Place;
pub use steps::Steps;
pub use user_id::UserId;
pub use view_name::{ViewName, compare_view_names};
