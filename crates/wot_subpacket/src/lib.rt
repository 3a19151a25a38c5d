//! Lists of signature subpackets (RFC 9580, section 5.2.3.7), read in place: no octet is copied.
//!
//! It uses std alone. `wot_signature` reads both areas of a signature through it.
#![tactic(auto)]

mod area;
mod fault;
mod first;
pub mod laws;
mod size;
mod sub;

pub use area::{Area, AreaIter};
pub use fault::AreaFault;
pub use sub::Sub;
