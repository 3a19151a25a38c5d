//! Merging certificates into the kept ones: all or none. The certificates of one import are gathered by key, tried, and
//! merged one after another with a log that undoes each step; the totals that limits are compared with follow. A
//! certificate that is the only one of an import, and of a new key, is kept itself. It uses wot_keyring_spec
//! alone, beside wot_index. wot_keyring calls it for an import.
#![tactic(auto)]

mod adopting;
mod gather;
mod in_place;
mod room;
mod staging;
mod tally;
mod trial;
mod undo;

pub use adopting::put_new;
pub use gather::gathered;
pub use room::{has_room, only};
pub use staging::{Fault, Progress, Terms, put_all};
pub use tally::{Tally, Weight};
pub use trial::try_all;
pub use undo::take_back;
