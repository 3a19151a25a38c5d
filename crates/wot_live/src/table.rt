//! What `rows` returns. wot_network keeps it for each certificate.
use wot_edge::Edge;

/// The edges into one certificate at a time, and its revoked user IDs.
#[derive(Drop)]
pub struct Rows {
    /// The edges into it, in the order of issuer and user ID.
    pub edges: Vec<Edge>,
    /// The places of the user IDs that its own key revoked.
    pub revoked: Vec<u32>,
}
