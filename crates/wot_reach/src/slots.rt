//! The numbers of a table in a vector, split by the first octets of fingerprints: most are found by one look instead of
//! a walk down a tree.
//!
//! It is a cache of the map in `reach`: a slot counts only if its fingerprint is the wanted one.
ghost use Rattle.std.specs.Prelude.{◌≡◌, ℕ, List};
ghost use Rattle.wot_types.specs.declared.fpr.Fpr.{Fpr as Print};
ghost use Rattle.wot_reach.specs.Reach.{number_of};
ghost use Rattle.wot_reach.specs.Slots.{AreSlots, HasNumber, HasNumberIfSome};

use std::alloc::Global;
use std::collections::BTreeMap;
use wot_types::{Fpr, Memory};

/// The number of a fingerprint.
#[derive(Clone, Copy)]
pub(crate) struct Slot {
    pub(crate) fpr: Fpr,
    pub(crate) number: u8,
    /// Its place in the table, if that is known.
    pub(crate) place: Option<u32>,
}

/// Slots in the order of their fingerprints, in parts of about one, and where each part begins. Fingerprints that crowd
/// into one part are not all found.
#[derive(Drop)]
pub(crate) struct Slots {
    pub(crate) slots: Vec<Slot, Global>,
    pub(crate) starts: Vec<u32, Global>,
}

/// How many slots of a part are looked at.
const LOOKS: u8 = 8;

impl Slots {
    pub(crate) fn none(alloc: Global) -> Slots
        ensures slots { (numbers : List (Print × ℕ)) → AreSlots numbers result.slots.items }
    {
        Slots {
            slots: Vec::new(alloc),
            starts: Vec::new(alloc),
        }
    }

    /// Adds the slot of one more of `count` fingerprints.
    pub(crate) fn add(
        &mut self,
        count: usize,
        numbers: &BTreeMap<Fpr, u8>,
        fpr: &Fpr,
    ) -> Result<(), Memory>
        ensures slots { AreSlots numbers.now.entries self.old.slots.items →
            AreSlots numbers.now.entries self.new.slots.items }
    {
        begin_parts(&mut self.starts, part_of(fpr, count), self.slots.len())?;
        put_slot(&mut self.slots, numbers, fpr)
    }

    /// The number of a fingerprint; `None` if it isn't found.
    pub(crate) fn find(&self, fpr: &Fpr) -> Option<u8>
        ensures tells { (numbers : List (Print × ℕ)) → AreSlots numbers self.now.slots.items
            → HasNumberIfSome numbers fpr.now result }
    {
        match self.place(fpr) {
            None => None,
            Some(place) => number_from(&self.slots, place, fpr),
        }
    }

    /// The number of a fingerprint that was found at this place, if it was.
    fn find_at(&self, place: Option<u32>, fpr: &Fpr) -> Option<u8>
        ensures tells { (numbers : List (Print × ℕ)) → AreSlots numbers self.now.slots.items
            → HasNumberIfSome numbers fpr.now result }
    {
        match place {
            None => None,
            Some(place) => number_from(&self.slots, place as usize, fpr),
        }
    }

    /// The place of a fingerprint; `None` if it isn't found.
    pub(crate) fn place(&self, fpr: &Fpr) -> Option<usize> {
        match self.starts.get(part_of(fpr, self.slots.len())) {
            None => None,
            Some(start) => place_from(&self.slots, *start as usize, fpr),
        }
    }

    /// The place of a fingerprint in four octets.
    pub(crate) fn short_place(&self, fpr: &Fpr) -> Option<u32> {
        match self.place(fpr) {
            Some(place) => u32::try_from(place).ok(),
            None => None,
        }
    }
}

/// The part of a fingerprint among `count` parts, by its first two octets.
fn part_of(fpr: &Fpr, count: usize) -> usize {
    let (first, second) = match fpr {
        Fpr::V4(octets) => (octets[0], octets[1]),
        Fpr::V6(octets) => (octets[0], octets[1]),
    };
    let word = (u64::from(first) << 8) | u64::from(second);
    let parts = count.min(1 << 16) as u64;
    (word.wrapping_mul(parts) >> 16) as usize
}

/// Lets this part, and those before it that have no start yet, begin at a place.
fn begin_parts(starts: &mut Vec<u32>, part: usize, place: usize) -> Result<(), Memory> {
    let place = u32::try_from(place).unwrap_or(u32::MAX);
    'parts: for _part in starts.len()..part.saturating_add(1) {
        starts.push(place)?;
    }
    Ok(())
}

/// The number of a fingerprint in a table.
pub(crate) fn number_in(numbers: &BTreeMap<Fpr, u8>, fpr: &Fpr) -> u8
    ensures number { result ≡ number_of numbers.now.entries fpr.now }
{
    match numbers.get(fpr) {
        Some(number) => *number,
        None => 255,
    }
}

/// The number of a fingerprint, from the slots if it is found there.
pub(crate) fn number_by(slots: &Slots, numbers: &BTreeMap<Fpr, u8>, fpr: &Fpr) -> u8
    requires slots { AreSlots numbers.now.entries slots.now.slots.items }
    ensures number { result ≡ number_of numbers.now.entries fpr.now }
{
    match slots.find(fpr) {
        Some(number) => number,
        None => number_in(numbers, fpr),
    }
}

/// The number of a fingerprint, from the slot at this place if it was found there.
pub(crate) fn number_by_place(
    slots: &Slots,
    numbers: &BTreeMap<Fpr, u8>,
    place: Option<u32>,
    fpr: &Fpr,
) -> u8
    requires slots { AreSlots numbers.now.entries slots.now.slots.items }
    ensures number { result ≡ number_of numbers.now.entries fpr.now }
{
    match slots.find_at(place, fpr) {
        Some(number) => number,
        None => number_in(numbers, fpr),
    }
}

/// Appends the slot of a fingerprint.
fn put_slot(slots: &mut Vec<Slot>, numbers: &BTreeMap<Fpr, u8>, fpr: &Fpr) -> Result<(), Memory>
    ensures slots { AreSlots numbers.now.entries slots.old.items → AreSlots numbers.now.entries slots.new.items }
{
    slots.push(Slot {
        fpr: *fpr,
        number: number_in(numbers, fpr),
        place: None,
    })?;
    Ok(())
}

/// The number of a slot, if it is this fingerprint's.
#[tactic(auto, using(crate::proofs::SlotNumbers::tells_equal))]
fn number_if(slot: &Slot, fpr: &Fpr) -> Option<u8>
    ensures tells { (numbers : List (Print × ℕ)) → HasNumber numbers slot.now.fpr slot.now.number
        → HasNumberIfSome numbers fpr.now result }
{
    if slot.fpr == *fpr {
        Some(slot.number)
    } else {
        None
    }
}

/// The number of the slot at a place, if it is this fingerprint's.
pub(crate) fn number_from(slots: &[Slot], place: usize, fpr: &Fpr) -> Option<u8>
    ensures tells { (numbers : List (Print × ℕ)) → AreSlots numbers slots.now → HasNumberIfSome numbers fpr.now result }
{
    if place >= slots.len() {
        return None;
    }
    number_if(&slots[place], fpr)
}

/// The place of a fingerprint, if it is in one of the first slots from here on.
fn place_from(slots: &[Slot], start: usize, fpr: &Fpr) -> Option<usize> {
    let mut place = start;
    'places: for _look in 0..LOOKS {
        let Some(slot) = slots.get(place) else {
            return None;
        };
        if slot.fpr == *fpr {
            return Some(place);
        }
        place = place.saturating_add(1);
    }
    None
}
