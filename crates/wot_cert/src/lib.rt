//! Certificates: assembled from packets, merged, marked by the policy, written, and their spans in time.
//!
//! It uses `wot_component`, which has the lists of signatures and components, and `wot_packet`, `wot_key` and
//! `wot_policy`. `wot_keyring` keeps certificates, and `wot_standing` and `wot_live` read them.
#![tactic(auto)]

mod adds;
mod assembling;
mod cert;
mod cert_list;
mod complete;
mod draft;
mod export;
mod fault;
mod first_fault;
mod growth;
mod issuer;
pub mod laws;
mod moments;
mod places;
mod spans;

pub use assembling::{Assembled, assemble};
pub use cert::Cert;
pub use cert_list::CertList;
pub use fault::{CertFault, MergeFault};
pub use growth::Growth;
pub use issuer::{issuer_from, issuer_of};
pub use moments::Span;
pub use spans::span;
pub use wot_component::{Adds, Part, Sig};
pub use wot_kept_signature::{Terms, Times};
