//! The header of one packet, in the OpenPGP and in the legacy format.
//!
//! It uses the plain reader in `specs/Reading.antt`. `read` reads each packet through it; a change changes which
//! texts are packets, and where the first fault of others is.
ghost use Rattle.std.specs.Prelude.{◌<◌};
ghost use Rattle.wot_packet.specs.Answers.{Finds};
ghost use Rattle.wot_packet.specs.Reading.{openpgp_length, legacy_length, headed_of};
ghost use Rattle.wot_packet.specs.Seen.{headed_seen};

use crate::Why;

/// A packet's header (RFC 9580, section 4.2), and the octets after it.
#[derive(Clone, Copy)]
pub(crate) struct Header<'a> {
    pub kind: u8,
    pub length: usize,
    pub rest: &'a [u8],
}

/// Reads a length in the OpenPGP format (section 4.2.1). Returns it with the octets after it.
fn openpgp(octets: &[u8]) -> Result<(usize, &[u8]), Why>
    ensures { Finds (λ found. (found.0, found.1.now)) result (openpgp_length octets.now) }
{
    match octets {
        [length @ 0..=191, rest @ ..] => Ok((usize::from(*length), rest)),
        [first @ 192..=223, second, rest @ ..] => {
            let length = (usize::from(*first) - 192) * 256 + usize::from(*second) + 192;
            Ok((length, rest))
        }
        [224..=254, ..] => Err(Why::Partial),
        [255, a, b, c, d, rest @ ..] => {
            let length = u32::from_be_bytes([*a, *b, *c, *d]);
            Ok((length as usize, rest))
        }
        _ => Err(Why::CutLength),
    }
}

/// Reads a length in the legacy format (section 4.2.2), of this length type. Returns it with the octets after it.
fn legacy(length_type: u8, octets: &[u8]) -> Result<(usize, &[u8]), Why>
    requires { length_type < 4 }
    ensures { Finds (λ found. (found.0, found.1.now)) result (legacy_length length_type octets.now) }
{
    match (length_type, octets) {
        (0, [length, rest @ ..]) => Ok((usize::from(*length), rest)),
        (1, [a, b, rest @ ..]) => Ok((usize::from(u16::from_be_bytes([*a, *b])), rest)),
        (2, [a, b, c, d, rest @ ..]) => {
            let length = u32::from_be_bytes([*a, *b, *c, *d]);
            Ok((length as usize, rest))
        }
        (3, _) => Err(Why::Indeterminate),
        _ => Err(Why::CutLength),
    }
}

/// Reads the header at the beginning.
pub(crate) fn read_header(octets: &[u8]) -> Result<Header<'_>, Why>
    ensures { Finds headed_seen result (headed_of octets.now) }
{
    let [tag, lengths @ ..] = octets else {
        return Err(Why::CutLength);
    };
    let tag = *tag;
    if tag < 128 {
        return Err(Why::NotAPacket);
    }
    let (kind, (length, rest)) = if tag < 192 {
        ((tag - 128) / 4, legacy((tag - 128) % 4, lengths)?)
    } else {
        (tag - 192, openpgp(lengths)?)
    };
    Ok(Header { kind, length, rest })
}
