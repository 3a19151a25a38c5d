//! Whether a key stands at a time, what ends or revokes it, and each issuer's newest certification on a user ID.
//!
//! It uses `wot_cert` and its verdicts. `wot_live` makes edges by it and `wot_network` decides usable edges;
//! `docs/PROFILE.md` states these rules.
#![tactic(auto)]

mod certifiers;
mod governing;
pub mod kinds;
mod latest;
pub mod laws;
mod newest;
mod own;
mod places;
mod revoked;
mod status;
mod steady;
mod usable;

pub use certifiers::Certifiers;
pub use governing::{standing, standing_at, standing_with};
pub use newest::more_primary;
pub use own::is_own_revoked;
pub use places::Certified;
pub use status::Standing;
pub use steady::steady_span;
pub use usable::{is_key_in_order, is_usable};
