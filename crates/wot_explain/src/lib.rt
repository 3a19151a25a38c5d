//! Which bindings are authenticated to an amount, and why a certification is or isn't a usable edge. It uses
//! wot_network and wot_search for the list, and wot_standing for the reasons. wot_machine prints what it returns as
//! the replies to `list` and `explain`, and as the pieces of cursors.
#![tactic(auto)]

mod bind;
mod explained;
mod explaining;
pub mod laws;
mod listing;
mod moments;
mod piece;
mod reasons;
mod revoked;
mod signature;
mod sought;
mod target;
mod words;

pub use bind::Bind;
pub use explained::{ExplainFault, Explained, Reason, ReasonList};
pub use explaining::explain;
pub use listing::list;
pub use piece::{list_after, list_page};
pub use sought::{Page, Sought};
