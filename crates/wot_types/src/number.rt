//! Signature numbers: how they are read and printed, and their order.
//!
//! It uses `hex`, `octets` and `specs/SigNumber.antt`. `wot_verdict` says which number a signature has; verdicts
//! are kept by these numbers. The order's own proof is `specs/NumberOrder.antt`.
ghost use Rattle.std.specs.Prelude.{◌≡◌, ◌<◌, ◌≤◌, ◌+◌, ◌++◌, length, vec_len, vec_capacity, OnOk, OnErr};
ghost use Rattle.wot_types.specs.SigNumber.{number_digits, number_cmp, number_of_digits};

use crate::Memory;
use crate::digits::digits_are_read;
use crate::octets::compare_octets;
use std::cmp::Ordering;

/// The number of a signature, a SHA-256 digest. Numbers are ordered by their octets.
#[derive(Clone, Copy, Debug, PartialEq, Eq)]
pub struct SigNumber(pub [u8; 32]);

impl SigNumber {
    /// Reads 64 hexadecimal digits of either case; `None` for every other text.
    pub fn read(digits: &[u8]) -> Option<SigNumber>
        ensures read { result ≡ number_of_digits digits.now }
    {
        let mut octets = [0u8; 32];
        match hex::decode_to_slice(digits, &mut octets) {
            Ok(()) => Some(SigNumber(octets)),
            Err(_) => None,
        }
    }

    /// Appends the 64 digits, in lower case. After `Memory`, `out` is as before.
    pub fn print(&self, out: &mut Vec<u8>) -> Result<(), Memory>
        ensures printed { OnOk result (out.new.items ≡ out.old.items ++ number_digits self.now) }
        ensures kept { OnErr result (out.new.items ≡ out.old.items) }
        // It fails only if room was missing, and the capacity never shrinks.
        ensures full { OnErr result (vec_capacity out.old < vec_len out.old + length (number_digits self.now)) }
        ensures grows { vec_capacity out.old ≤ vec_capacity out.new }
    {
        let mut digits = [0u8; 64];
        let _ = hex::encode_to_slice(self.0.as_slice(), &mut digits);
        out.extend_from_slice(&digits)?;
        Ok(())
    }

    /// A law: what `print` appends, `read` reads as this number.
    pub fn printed_is_read(&self)
        ensures read_back { number_of_digits (number_digits self.now) ≡ Some self.now }
    {
        digits_are_read(self.0.as_slice());
    }
}

impl PartialOrd for SigNumber {
    ghost use Rattle.std.specs.Prelude.{refl};
    ghost use Rattle.std.specs.Cmp.{partial_order_from_agreeing_total};
    ghost use Rattle.std.specs.Ordering.{as_partial_cmp};
    ghost use Rattle.wot_types.specs.SigNumber.{number_cmp};
    ghost use Rattle.wot_types.specs.NumberOrder.{number_total, number_ties};

    ghost partial_cmp = { as_partial_cmp number_cmp };

    ghost laws = { partial_order_from_agreeing_total number_cmp number_total (λ a b. refl) number_ties };

    fn partial_cmp(&self, other: &SigNumber) -> Option<Ordering> {
        Some(self.cmp(other))
    }
}

impl Ord for SigNumber {
    ghost use Rattle.std.specs.Prelude.{refl};
    ghost use Rattle.wot_types.specs.SigNumber.{number_cmp};
    ghost use Rattle.wot_types.specs.NumberOrder.{number_total, number_ties};

    ghost cmp = { number_cmp };

    ghost total = { number_total };

    ghost matches_partial_cmp = { λ a b. refl };

    ghost matches_eq = { number_ties };

    fn cmp(&self, other: &SigNumber) -> Ordering {
        compare_numbers(self, other)
    }
}

/// Compares two numbers octet by octet.
pub fn compare_numbers(left: &SigNumber, right: &SigNumber) -> Ordering
    ensures octets { result ≡ number_cmp left.now right.now }
{
    compare_octets(&left.0, &right.0)
}
