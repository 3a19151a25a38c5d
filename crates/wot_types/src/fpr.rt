//! Fingerprints of version 4 and version 6 keys: their octets, how they are read and printed, and their order.
//!
//! It uses `hex`, `octets` and `specs/Fpr.antt`. Maps everywhere are ordered by fingerprints, and dumps and
//! replies print them, so a change here touches all of it. The order's own proof is `specs/FprOrder.antt`.
ghost use Rattle.std.specs.Prelude.{◌≡◌, ◌<◌, ◌≤◌, ◌+◌, ◌++◌, length, vec_len, vec_capacity, OnOk, OnErr, Some, None};
ghost use Rattle.std.specs.Cmp.Lexicographic.{slice_cmp};
ghost use Rattle.std.specs.Option.{option_map};
ghost use Rattle.std.specs.Ordering.{nat_cmp};
ghost use Rattle.hex.specs.Hex.{encode_lower};
ghost use Rattle.wot_types.specs.Digits.{array_of_digits};
ghost use Rattle.wot_types.specs.Fpr.{octets_of, octets_in, version_of, digits_of, fpr_cmp, fpr_of_digits};

use crate::Memory;
use crate::digits::digits_are_read;
use crate::octets::compare_octets;
use std::cmp::Ordering;

/// A key's fingerprint (RFC 9580, section 5.5.4). Fingerprints are ordered by their octets.
#[derive(Clone, Copy, Debug, PartialEq, Eq)]
pub enum Fpr {
    /// Of a version 4 key: a SHA-1 digest.
    V4([u8; 20]),
    /// Of a version 6 key: a SHA-256 digest.
    V6([u8; 32]),
}

impl Fpr {
    /// The 20 or 32 octets.
    pub fn octets(&self) -> &[u8]
        ensures octets { result.now ≡ octets_of self.now }
        ensures size { length (octets_of self.now) ≡ octets_in self.now }
    {
        match self {
            Fpr::V4(octets) => slice_v4(octets),
            Fpr::V6(octets) => slice_v6(octets),
        }
    }

    /// The version of the key, 4 or 6.
    pub fn version(&self) -> u8
        ensures version { result ≡ version_of self.now }
    {
        match self {
            Fpr::V4(_) => 4,
            Fpr::V6(_) => 6,
        }
    }

    /// Reads 40 or 64 hexadecimal digits of either case; `None` for every other text.
    pub fn read(digits: &[u8]) -> Option<Fpr>
        ensures read { result ≡ fpr_of_digits digits.now }
    {
        read_v4(digits).or(read_v6(digits))
    }

    /// Appends the 40 or 64 digits, in lower case. After `Memory`, `out` is as before.
    pub fn print(&self, out: &mut Vec<u8>) -> Result<(), Memory>
        ensures printed { OnOk result (out.new.items ≡ out.old.items ++ digits_of self.now) }
        ensures kept { OnErr result (out.new.items ≡ out.old.items) }
        // It fails only if room was missing, and the capacity never shrinks.
        ensures full { OnErr result (vec_capacity out.old < vec_len out.old + length (digits_of self.now)) }
        ensures grows { vec_capacity out.old ≤ vec_capacity out.new }
    {
        match self {
            Fpr::V4(octets) => print_v4(octets, out),
            Fpr::V6(octets) => print_v6(octets, out),
        }
    }

    /// A law: what `print` appends, `read` reads as this fingerprint.
    pub fn printed_is_read(&self)
        ensures read_back { fpr_of_digits (digits_of self.now) ≡ Some self.now }
    {
        match self {
            Fpr::V4(octets) => twenty_are_read(octets),
            Fpr::V6(octets) => thirty_two_are_read(octets),
        }
    }
}

impl PartialOrd for Fpr {
    ghost use Rattle.std.specs.Prelude.{refl};
    ghost use Rattle.std.specs.Cmp.{partial_order_from_agreeing_total};
    ghost use Rattle.std.specs.Ordering.{as_partial_cmp};
    ghost use Rattle.wot_types.specs.Fpr.{fpr_cmp};
    ghost use Rattle.wot_types.specs.FprOrder.{fpr_total, fpr_ties};

    ghost partial_cmp = { as_partial_cmp fpr_cmp };

    ghost laws = { partial_order_from_agreeing_total fpr_cmp fpr_total (λ a b. refl) fpr_ties };

    fn partial_cmp(&self, other: &Fpr) -> Option<Ordering> {
        Some(self.cmp(other))
    }
}

impl Ord for Fpr {
    ghost use Rattle.std.specs.Prelude.{refl};
    ghost use Rattle.wot_types.specs.Fpr.{fpr_cmp};
    ghost use Rattle.wot_types.specs.FprOrder.{fpr_total, fpr_ties};

    ghost cmp = { fpr_cmp };

    ghost total = { fpr_total };

    ghost matches_partial_cmp = { λ a b. refl };

    ghost matches_eq = { fpr_ties };

    fn cmp(&self, other: &Fpr) -> Ordering {
        compare_fprs(self, other)
    }
}

fn slice_v4(octets: &[u8; 20]) -> &[u8]
    ensures octets { result.now ≡ octets.now }
    ensures size { length octets.now ≡ 20 }
{
    octets.as_slice()
}

fn slice_v6(octets: &[u8; 32]) -> &[u8]
    ensures octets { result.now ≡ octets.now }
    ensures size { length octets.now ≡ 32 }
{
    octets.as_slice()
}

fn read_v4(digits: &[u8]) -> Option<Fpr>
    ensures { result ≡ option_map Fpr.V4 (array_of_digits 20 digits.now) }
{
    let mut octets = [0u8; 20];
    match hex::decode_to_slice(digits, &mut octets) {
        Ok(()) => Some(Fpr::V4(octets)),
        Err(_) => None,
    }
}

fn read_v6(digits: &[u8]) -> Option<Fpr>
    ensures { result ≡ option_map Fpr.V6 (array_of_digits 32 digits.now) }
{
    let mut octets = [0u8; 32];
    match hex::decode_to_slice(digits, &mut octets) {
        Ok(()) => Some(Fpr::V6(octets)),
        Err(_) => None,
    }
}

fn print_v4(octets: &[u8; 20], out: &mut Vec<u8>) -> Result<(), Memory>
    ensures printed { OnOk result (out.new.items ≡ out.old.items ++ encode_lower octets.now) }
    ensures kept { OnErr result (out.new.items ≡ out.old.items) }
    ensures full { OnErr result (vec_capacity out.old < vec_len out.old + length (encode_lower octets.now)) }
    ensures grows { vec_capacity out.old ≤ vec_capacity out.new }
{
    let mut digits = [0u8; 40];
    let _ = hex::encode_to_slice(octets.as_slice(), &mut digits);
    out.extend_from_slice(&digits)?;
    Ok(())
}

fn print_v6(octets: &[u8; 32], out: &mut Vec<u8>) -> Result<(), Memory>
    ensures printed { OnOk result (out.new.items ≡ out.old.items ++ encode_lower octets.now) }
    ensures kept { OnErr result (out.new.items ≡ out.old.items) }
    ensures full { OnErr result (vec_capacity out.old < vec_len out.old + length (encode_lower octets.now)) }
    ensures grows { vec_capacity out.old ≤ vec_capacity out.new }
{
    let mut digits = [0u8; 64];
    let _ = hex::encode_to_slice(octets.as_slice(), &mut digits);
    out.extend_from_slice(&digits)?;
    Ok(())
}

fn twenty_are_read(octets: &[u8; 20])
    ensures { array_of_digits 20 (encode_lower octets.now) ≡ Some octets.now }
{
    digits_are_read(octets.as_slice());
}

fn thirty_two_are_read(octets: &[u8; 32])
    ensures other { array_of_digits 20 (encode_lower octets.now) ≡ None }
    ensures own { array_of_digits 32 (encode_lower octets.now) ≡ Some octets.now }
{
    digits_are_read(octets.as_slice());
}

/// How two fingerprints compare: as their octets do, octet by octet, a proper prefix first.
pub fn compare_fprs(left: &Fpr, right: &Fpr) -> Ordering
    ensures octets { result ≡ fpr_cmp left.now right.now }
    ensures plain { result ≡ slice_cmp nat_cmp (octets_of left.now) (octets_of right.now) }
{
    compare_octets(left.octets(), right.octets())
}
