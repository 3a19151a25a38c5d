//! The keyring: certificates by fingerprint, verdicts by signature number, limits, stamps, and the dump. It uses
//! its three rooms, wot_keyring_spec, wot_index and wot_merge, and the lines of wot_fields for the dump. wot_network
//! reads certificates and stamps, and wot_cache owns the keyring, so a changed contract of `Keyring` reaches both.
#![tactic(auto)]

mod dump;
mod import;
mod keyring;
pub mod laws;
mod uniting;

pub use dump::put_line;
pub use keyring::Keyring;
pub use wot_keyring_spec::{
    Absent, CertsIter, ExportFault, Imported, Pending, Refusal, read_entry,
};
