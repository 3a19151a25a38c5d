//! On which certificate each signature is, and which certificates were altered since a count of changes: the index and
//! the log of a keyring, so that neither a verdict nor a refresh walks over the certificates. It uses
//! wot_keyring_spec and wot_verdict, beside wot_merge. wot_keyring keeps both in step with its certificates.
#![tactic(auto)]

mod forgetting;
mod index;
pub mod log;
mod noting;
mod restamp;

pub use forgetting::forget_cert;
pub use index::Index;
pub use noting::note_all;
pub use restamp::restamp_noted;
