//! The octets of a signature: its mark, the shape of its facts, the facts, its number and its body.
//!
//! It uses `shape` and `specs/KeptOctets.antt`. `new_octets` makes them, and `kept_facts` reads the facts. The
//! mark comes first, so that the rest is as it was when the mark is set.
ghost use Rattle.std.specs.Prelude.{◌≡◌, ◌≤◌, ◌+◌, ◌==◌, drop, set, length, slice_index, vec_len};
ghost use Rattle.wot_kept_signature.specs.KeptFacts.{flag};
ghost use Rattle.wot_kept_signature.specs.KeptOctets.{ReachesBody, body_in as body_in_spec};
ghost use Rattle.wot_kept_signature.specs.KeptOctets.{number_in as number_in_spec};
ghost use Rattle.wot_kept_signature.specs.KeptOctets.{shape_in as shape_in_spec};

use crate::shape::Shape;
use wot_types::SigNumber;

/// The octets after the mark.
#[inline(always)]
pub(crate) fn after_mark(octets: &[u8]) -> &[u8]
    requires { 1 ≤ length octets.now }
    ensures kept { result.now ≡ drop 1 octets.now }
    ensures size { length result.now + 1 ≡ length octets.now }
{
    let (_, kept) = octets.split_at(1);
    kept
}

/// Whether the mark is set.
#[inline(always)]
pub(crate) fn mark_in(octets: &[u8]) -> bool
    requires { 1 ≤ length octets.now }
    ensures { result ≡ (slice_index octets.now 0 == 1) }
{
    octets[0] == 1
}

/// Sets or removes the mark.
pub(crate) fn set_mark(octets: &mut Vec<u8>, mark: bool)
    requires { 1 ≤ vec_len octets.old }
    ensures { octets.new.items ≡ set octets.old.items 0 (flag mark) }
{
    octets[0] = u8::from(mark);
}

/// The shape of the facts.
#[inline(always)]
pub(crate) fn shape_in(kept: &[u8]) -> Shape
    requires { ReachesBody kept.now }
    ensures { result ≡ shape_in_spec kept.now }
{
    Shape::of(kept[0])
}

/// The number.
#[inline(always)]
pub(crate) fn number_in(kept: &[u8]) -> SigNumber
    requires { ReachesBody kept.now }
    ensures { result ≡ number_in_spec kept.now }
{
    let (_, rest) = kept.split_at(shape_in(kept).head_size());
    let (number, _) = rest.split_at(32);
    let mut octets = [0u8; 32];
    octets.copy_from_slice(number);
    SigNumber(octets)
}

/// The body.
#[inline(always)]
pub(crate) fn body_in(kept: &[u8]) -> &[u8]
    requires { ReachesBody kept.now }
    ensures { result.now ≡ body_in_spec kept.now }
{
    let (_, body) = kept.split_at(shape_in(kept).head_size() + 32);
    body
}
