//! Which subpackets are known: their types, and which bodies fit them.
//!
//! It uses `specs/Known.antt`. A critical subpacket that isn't known here makes a signature count for nothing, so
//! a change changes answers.
ghost use Rattle.std.specs.Prelude.{◌≡◌, ◌==◌};
ghost use Rattle.std.specs.List.{list_any};
ghost use Rattle.wot_subpacket.specs.Seen.{seen};
ghost use Rattle.wot_signature.specs.Known.{effectless, is_known as is_known_spec, fits as fits_spec};
ghost use Rattle.wot_signature.specs.Known.{is_issuer as is_issuer_spec};

use wot_subpacket::Sub;

// The subpacket types that have an effect here (RFC 9580, section 5.2.3.7).
pub(crate) const CREATION_TIME: u8 = 2;

pub(crate) const EXPIRATION: u8 = 3;

pub(crate) const TRUST: u8 = 5;

pub(crate) const PATTERN: u8 = 6;

pub(crate) const REVOCABLE: u8 = 7;

pub(crate) const KEY_EXPIRATION: u8 = 9;

pub(crate) const ISSUER_KEY_ID: u8 = 16;

pub(crate) const PRIMARY_USER_ID: u8 = 25;

pub(crate) const REASON: u8 = 29;

pub(crate) const ISSUER_FINGERPRINT: u8 = 33;

/// Whether the type is known and the body fits it.
pub(crate) fn is_known(sub: &Sub<'_>) -> bool
    ensures { result ≡ is_known_spec (seen sub.now) }
{
    fits(sub.kind, sub.body)
}

fn fits(kind: u8, body: &[u8]) -> bool
    ensures { result ≡ fits_spec kind body.now }
{
    match kind {
        CREATION_TIME | EXPIRATION | KEY_EXPIRATION => body.len() == 4,
        TRUST => body.len() == 2,
        REVOCABLE | PRIMARY_USER_ID => body.len() == 1,
        ISSUER_KEY_ID => body.len() == 8,
        REASON => !body.is_empty(),
        ISSUER_FINGERPRINT => is_issuer(body),
        _ => kind == PATTERN || is_effectless(kind),
    }
}

/// The octet 4 and 20 octets, or the octet 6 and 32 octets.
fn is_issuer(body: &[u8]) -> bool
    ensures { result ≡ is_issuer_spec body.now }
{
    (body.len() == 21 && body[0] == 4) || (body.len() == 33 && body[0] == 6)
}

fn is_effectless(kind: u8) -> bool
    ensures { result ≡ list_any (λ other. kind == other) effectless }
{
    matches!(kind, 4 | 11 | 12 | 21..=24 | 26..=28 | 30..=32 | 35 | 39)
}
