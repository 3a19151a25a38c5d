//! User IDs in lines: reading their escapes. It uses `specs/Uid.antt`, and `piece` prints them. User IDs may hold
//! any octets, so a line feed in one is always escaped.
ghost use Rattle.std.specs.Prelude.{◌≡◌, ◌∷◌, [], IfOk};
ghost use Rattle.std.specs.Option.{option_map};
ghost use Rattle.wot_types.specs.Digits.{array_of_digits};
ghost use Rattle.wot_fields.specs.Uid.{unescape_step, unescaped};
ghost use Rattle.wot_fields.specs.Turned.{Turned};

use std::alloc::Global;
use wot_types::{Memory, UserId};

/// The state in which a user ID is read.
#[derive(Clone, Copy)]
pub enum Place {
    /// Outside an escape.
    Outside,
    /// After a backslash.
    Backslash,
    /// After `\x`.
    High,
    /// After `\x` and one digit.
    Low(u8),
}

fn read_pair(high: u8, low: u8) -> Option<[u8; 1]>
    ensures { result ≡ array_of_digits 1 (high ∷ low ∷ []) }
{
    let mut octet = [0u8; 1];
    match hex::decode_to_slice([high, low].as_slice(), &mut octet) {
        Ok(()) => Some(octet),
        Err(_) => None,
    }
}

fn take_pair(high: u8, low: u8, octets: &mut Vec<u8>) -> Result<Option<Place>, Memory>
    ensures { IfOk result (Turned octets.old.items octets.new.items (unescape_step (Place.Low high) low)) }
{
    let Some(octet) = read_pair(high, low) else {
        return Ok(None);
    };
    octets.extend_from_slice(&octet)?;
    Ok(Some(Place::Outside))
}

fn take_turn(place: Place, octet: u8, octets: &mut Vec<u8>) -> Result<Option<Place>, Memory>
    ensures { IfOk result (Turned octets.old.items octets.new.items (unescape_step place octet)) }
{
    match place {
        Place::Outside => {
            if octet == b'\\' {
                return Ok(Some(Place::Backslash));
            }
            octets.push(octet)?;
            Ok(Some(Place::Outside))
        }
        Place::Backslash => {
            if octet == b'x' {
                return Ok(Some(Place::High));
            }
            if octet != b'\\' {
                return Ok(None);
            }
            octets.push(octet)?;
            Ok(Some(Place::Outside))
        }
        Place::High => Ok(Some(Place::Low(octet))),
        Place::Low(high) => take_pair(high, octet, octets),
    }
}

#[tactic(auto, unfolding(crate::specs::Uid::unescaped))]
fn read_octets(alloc: Global, text: &[u8]) -> Result<Option<Vec<u8>>, Memory>
    ensures { IfOk result (λ octets. option_map (λ read. read.items) octets ≡ unescaped text.now) }
{
    let mut octets = Vec::new(alloc);
    let mut place = Place::Outside;
    for octet in text {
        let Some(next) = take_turn(place, *octet, &mut octets)? else {
            return Ok(None);
        };
        place = next;
    }
    match place {
        Place::Outside => Ok(Some(octets)),
        _ => Ok(None),
    }
}

/// Reads a user ID with its escapes.
pub fn read_uid(alloc: Global, text: &[u8]) -> Result<Option<UserId>, Memory>
    ensures { IfOk result (λ uid. uid ≡ unescaped text.now) }
{
    match read_octets(alloc, text)? {
        Some(octets) => Ok(Some(UserId::new(alloc, &octets)?)),
        None => Ok(None),
    }
}
