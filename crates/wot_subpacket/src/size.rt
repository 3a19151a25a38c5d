//! The length in front of a subpacket, in one, two or five octets. It uses `specs/Length.antt`. `first` reads each
//! length through it.
ghost use Rattle.std.specs.Prelude.{◌≡◌, ◌<◌, ◌≤◌, MatchOption, None, Some};
ghost use Rattle.wot_subpacket.specs.Length.{length_at, two_octets_at, four_octets_at};

/// Reads the length at the beginning. Returns it with the octets after it, or `None` if octets of the length are
/// missing.
pub(crate) fn length_of(bytes: &[u8]) -> Option<(usize, &[u8])>
    ensures { MatchOption result (length_at bytes.now ≡ None)
        (λ found. length_at bytes.now ≡ Some (found.0, found.1.now)) }
{
    let (first, rest) = bytes.split_first()?;
    match *first {
        0..=191 => Some((usize::from(*first), rest)),
        192..=254 => two_octets(*first, rest),
        255 => four_octets(rest),
    }
}

fn two_octets(first: u8, bytes: &[u8]) -> Option<(usize, &[u8])>
    requires { 192 ≤ first }
    ensures { MatchOption result (two_octets_at first bytes.now ≡ None) (λ found. two_octets_at first bytes.now
        ≡ Some (found.0, found.1.now)) }
{
    let (second, rest) = bytes.split_first()?;
    let high = usize::from(first) - 192;
    Some((high * 256 + usize::from(*second) + 192, rest))
}

fn four_octets(bytes: &[u8]) -> Option<(usize, &[u8])>
    ensures { MatchOption result (four_octets_at bytes.now ≡ None)
        (λ found. four_octets_at bytes.now ≡ Some (found.0, found.1.now)) }
{
    if bytes.len() < 4 {
        return None;
    }
    let number = u32::from_be_bytes([bytes[0], bytes[1], bytes[2], bytes[3]]);
    Some((number as usize, &bytes[4..]))
}
