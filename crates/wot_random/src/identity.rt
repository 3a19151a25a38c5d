//! One key with what certifications and commands need of it: its fingerprint, its user ID and its packets.
ghost use Rattle.std.specs.Prelude.{◌<◌, ◌^◌, length};

use wot_fields::Octets;
use wot_types::{Fpr, SigNumber, UserId};

/// A key with its one user ID and its direct key signature.
#[derive(Drop)]
pub struct Identity {
    /// The body of the key.
    pub body: Octets,
    pub fpr: Fpr,
    pub uid: UserId,
    /// The number of the direct key signature.
    pub direct: SigNumber,
    /// The packets of the key, of that signature and of the user ID.
    pub packets: Octets,
    ghost short_body: { length body < 2 ^ 32 },
    ghost short_uid: { length uid < 2 ^ 32 },
}
