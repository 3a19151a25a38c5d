//! The edges into one certificate at a time, the user IDs that its own key revoked, and the standing of the key. It
//! uses wot_standing, which finds each issuer's newest certification, and on wot_edge for the edge itself.
//! wot_network makes a certificate's edges with `rows` whenever it is stale, and its standing with `standing_by_edges`.
#![tactic(auto)]

mod found;
pub mod laws;
mod making;
mod revoked;
mod standing_by;
mod table;
mod terms;

pub use making::rows;
pub use standing_by::standing_by_edges;
pub use table::Rows;
