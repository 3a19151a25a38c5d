//! The facts of a signature, one field for each subpacket that has an effect.
//!
//! `specs/Facts.antt` defines their values. A new fact also needs a type in `known` and a case in `notes`;
//! `docs/CHANGING.md` has the steps.
use wot_types::Fpr;

/// What the hashed subpackets of a signature say. If several have one type, the last known one counts.
#[derive(Clone, Copy, Debug, PartialEq, Eq)]
pub struct SigFacts {
    /// The signature type: 0x10 to 0x13 are certifications, 0x1F is on the key, 0x20 and 0x30 revoke.
    pub kind: u8,
    /// The number of the hash algorithm.
    pub hash: u8,
    /// When it was created, in seconds since 1970; 0 if it doesn't say.
    pub made: u32,
    /// Its validity period in seconds; 0 if it doesn't expire.
    pub lasts: u32,
    /// The key's validity period in seconds; 0 if it doesn't expire.
    pub key_lasts: u32,
    /// The depth of a trust signature: how many further introducers may follow.
    pub depth: u8,
    /// The amount of trust; 120, which is full trust, if it doesn't say.
    pub amount: u8,
    /// Whether it has a regular expression, well-formed or not.
    pub scoped: bool,
    /// Whether it can be revoked.
    pub revocable: bool,
    /// Whether it marks the primary user ID.
    pub primary: bool,
    /// The code of the reason for a revocation.
    pub reason: Option<u8>,
    /// The fingerprint of the key that it names as its issuer.
    pub issuer: Option<Fpr>,
    /// Whether it has a creation time, and no unknown critical subpacket.
    pub sound: bool,
}
