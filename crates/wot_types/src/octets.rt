//! How octets compare: eight at a time, as one number.
//!
//! It uses std's slices. Fingerprints and signature numbers compare by it, and so do all maps of them.
ghost use Rattle.std.specs.Prelude.{◌≡◌};
ghost use Rattle.std.specs.Cmp.Lexicographic.{slice_cmp};
ghost use Rattle.std.specs.Ordering.{nat_cmp};

use std::cmp::Ordering;

/// Compares octet by octet, a proper prefix first.
pub(crate) fn compare_octets(left: &[u8], right: &[u8]) -> Ordering
    ensures { result ≡ slice_cmp nat_cmp left.now right.now }
{
    let mut left_rest = left;
    let mut right_rest = right;
    'words: while let Some((a, more)) = left_rest.split_first_chunk::<8>() {
        let Some((b, others)) = right_rest.split_first_chunk::<8>() else {
            return left_rest.cmp(right_rest);
        };
        let order = compare_words(a, b);
        if order.is_ne() {
            return order;
        }
        left_rest = more;
        right_rest = others;
    }
    left_rest.cmp(right_rest)
}

/// The first octet is the highest of its number, so the numbers compare as the octets do.
fn compare_words(left: &[u8; 8], right: &[u8; 8]) -> Ordering
    ensures { result ≡ slice_cmp nat_cmp left.now right.now }
{
    u64::from_be_bytes(*left).cmp(&u64::from_be_bytes(*right))
}
