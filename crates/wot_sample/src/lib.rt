//! Certificates for tests, written down by name. No part of the product.
//!
//! A test says packet by packet what a certificate holds, and [`text`] returns its octets (RFC 9580, section 10.1). The
//! test crates use it; wot_types is all that it uses.
#![tactic(auto)]

mod certificates;
mod names;
mod packet;
mod signature;

pub use certificates::{OWN_USER_IDS_REVOKED, SEVERAL_ISSUERS, SPANS};
pub use names::{
    A, ATTRIBUTE, CASUAL, CERTIFICATION, CERTIFICATION_REVOCATION, DIRECT, DIRECT_KEY, KEY, KEY_A,
    KEY_R, KEY_REVOCATION, KEY_T, PERSONA, POSITIVE, R, SUBKEY, T, TRUST,
};
pub use packet::{Packet, text};
pub use signature::Says;
