//! Names for signature types, packet types, keys and their fingerprints, so that a test reads like a description.
//! `packet` writes keys of which these are the fingerprints: change both together.
use crate::{Packet, Says};
use wot_types::Fpr;

/// Signature types (RFC 9580, section 5.2.1).
pub const CERTIFICATION: u8 = 0x10;

pub const PERSONA: u8 = 0x11;

pub const CASUAL: u8 = 0x12;

pub const POSITIVE: u8 = 0x13;

pub const DIRECT_KEY: u8 = 0x1f;

pub const KEY_REVOCATION: u8 = 0x20;

pub const CERTIFICATION_REVOCATION: u8 = 0x30;

/// Packet types (RFC 9580, section 5).
pub const KEY: u8 = 6;

pub const TRUST: u8 = 12;

pub const SUBKEY: u8 = 14;

pub const ATTRIBUTE: u8 = 17;

/// Keys with different key material. Each was created at 1000.
pub const KEY_R: Packet = Packet::Key(1);

pub const KEY_A: Packet = Packet::Key(2);

pub const KEY_T: Packet = Packet::Key(4);

/// A direct key signature created together with the keys.
pub const DIRECT: Packet = Packet::Signature(DIRECT_KEY, &[Says::Made(1000)]);

/// The fingerprint of `KEY_R`.
pub const R: Fpr = Fpr::V4([
    0x7f, 0x35, 0xc8, 0xdb, 0xd6, 0xb3, 0xeb, 0x2f, 0xfd, 0x59, 0xcb, 0xdd, 0x2e, 0x41, 0xea, 0x29,
    0x12, 0x12, 0xac, 0x38,
]);

/// The fingerprint of `KEY_A`.
pub const A: Fpr = Fpr::V4([
    0x35, 0x2e, 0x5f, 0x12, 0x05, 0x9b, 0x46, 0x05, 0xa5, 0xb8, 0xf8, 0x8f, 0x66, 0xd6, 0x55, 0xc9,
    0x13, 0x3e, 0x1c, 0xa2,
]);

/// The fingerprint of `KEY_T`.
pub const T: Fpr = Fpr::V4([
    0x3c, 0x98, 0xb8, 0x18, 0x0e, 0x0f, 0xca, 0xca, 0x10, 0x32, 0x49, 0x90, 0x82, 0xa5, 0xde, 0x8f,
    0xa5, 0xd9, 0x82, 0x32,
]);
