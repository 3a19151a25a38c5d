//! The first subpacket of some octets: its length, its type with the critical bit, and its body.
//!
//! It uses `size` and `specs/Subpacket.antt`. All of `area` depends on it.
ghost use Rattle.std.specs.Prelude.{◌≡◌, ◌<◌, length};
ghost use Rattle.wot_subpacket.specs.Area.{first_of};
ghost use Rattle.wot_subpacket.specs.Seen.{seen, GivesFirst};
ghost use Rattle.wot_subpacket.specs.Subpacket.{subpacket_of};

use crate::size::length_of;
use crate::{AreaFault, Sub};

/// Reads the first subpacket. Returns it with the octets after it. The fault of no octets is `CutLength`.
pub(crate) fn first(bytes: &[u8]) -> Result<(Sub<'_>, &[u8]), AreaFault>
    ensures { GivesFirst result (first_of bytes.now) }
{
    let Some((size, rest)) = length_of(bytes) else {
        return Err(AreaFault::CutLength);
    };
    if size == 0 {
        return Err(AreaFault::Zero);
    }
    if rest.len() < size {
        return Err(AreaFault::CutBody);
    }
    Ok((sub_of(&rest[..size]), &rest[size..]))
}

fn sub_of(octets: &[u8]) -> Sub<'_>
    requires { 0 < length octets.now }
    ensures { seen result ≡ subpacket_of octets.now }
{
    Sub {
        critical: octets[0] >= 128,
        kind: octets[0] % 128,
        body: &octets[1..],
    }
}
