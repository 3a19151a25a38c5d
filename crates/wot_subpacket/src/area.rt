//! An area of a signature: checked once as a list of subpackets, and then read as often as needed.
//!
//! It uses `first` and `specs/Area.antt`. `wot_signature` reads facts, hints and regular expressions through
//! `Area::iter`.
ghost use Rattle.std.specs.Prelude.{◌≡◌, ◌<◌, ◌^◌, length, IfOk, IsOk, MatchResult};
ghost use Rattle.wot_subpacket.specs.Area.{subpackets_of};
ghost use Rattle.wot_subpacket.specs.Slice.{HaveSlicesOf};

use crate::first::first;
use crate::{AreaFault, Sub};
use std::marker::Model;

/// An area of a signature: octets that are a list of subpackets. Contracts see the list.
#[derive(Drop)]
pub struct Area<'a> {
    bytes: &'a [u8],
}

impl<'a> Model for Area<'a> {
    ghost use Rattle.std.specs.Prelude.{List, IsOk};
    ghost use Rattle.wot_subpacket.specs.Subpacket.{Subpacket};
    ghost use Rattle.wot_subpacket.specs.Area.{list_of, subpackets_of};

    ghost Value = { List Subpacket };

    ghost view = { λ area. list_of area.bytes.now };

    ghost invariant = { λ area. IsOk (subpackets_of area.bytes.now) };
}

impl<'a> Area<'a> {
    /// Reads the octets as a list of subpackets. Returns the first fault if they aren't one. Each length is read once.
    pub fn new(bytes: &'a [u8]) -> Result<Area<'a>, AreaFault>
        ensures read { result ≡ subpackets_of bytes.now }
        ensures slices { IfOk result (HaveSlicesOf bytes.now) }
    {
        match check(bytes) {
            Ok(()) => Ok(Area { bytes }),
            Err(fault) => Err(fault),
        }
    }

    /// The subpackets in order, each body a slice of the area's octets.
    pub fn iter(&self) -> AreaIter<'a>
        ensures all { result ≡ self.now }
        ensures countable { length result < 2 ^ 64 }
    {
        AreaIter { rest: self.bytes }
    }
}

/// Whether the octets are a list of subpackets.
fn check(bytes: &[u8]) -> Result<(), AreaFault>
    ensures { MatchResult result (λ _. IsOk (subpackets_of bytes.now)) (λ fault. subpackets_of bytes.now ≡ Err fault) }
{
    let mut rest = bytes;
    'walk: while !rest.is_empty() {
        match first(rest) {
            Ok((_, behind)) => rest = behind,
            Err(fault) => return Err(fault),
        }
    }
    Ok(())
}

/// Iterates over the subpackets of an area. Contracts see the list of those that are left.
#[derive(Drop)]
pub struct AreaIter<'a> {
    rest: &'a [u8],
}

impl<'a> Model for AreaIter<'a> {
    ghost use Rattle.std.specs.Prelude.{List, IsOk};
    ghost use Rattle.wot_subpacket.specs.Subpacket.{Subpacket};
    ghost use Rattle.wot_subpacket.specs.Area.{list_of, subpackets_of};

    ghost Value = { List Subpacket };

    ghost view = { λ iter. list_of iter.rest.now };

    ghost invariant = { λ iter. IsOk (subpackets_of iter.rest.now) };
}

impl<'a> Iterator for AreaIter<'a> {
    ghost use Rattle.std.specs.Iterator.{YieldsFirstBy, item_count};
    ghost use Rattle.wot_subpacket.specs.Seen.{seen};

    type Item = Sub<'a>;

    ghost next_gives = { YieldsFirstBy seen (λ left. left) };

    ghost remaining = { item_count (λ left. left) };

    fn next(&mut self) -> Option<Sub<'a>> {
        match first(self.rest) {
            Ok((sub, behind)) => {
                self.rest = behind;
                Some(sub)
            }
            // The octets are a list, so there is a first one except at the end.
            Err(_) => None,
        }
    }
}
