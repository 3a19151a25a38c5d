//! Sums by a key: a key without an entry has the sum 0.
//!
//! They use std's map. `pairs` and `maps` add to them in two steps, first the room and then the amounts, so that
//! out of memory changes no sum.
ghost use Rattle.std.specs.Prelude.{◌≡◌, ◌+◌, ◌<◌, ◌^◌, OnOk, IsSome, if◌then◌else◌};
ghost use Rattle.std.specs.BTreeMap.{get};
ghost use Rattle.std.specs.Ordering.{is_eq};
ghost use Rattle.wot_edge.specs.Sums.{sum_at};

use std::alloc::Global;
use std::collections::BTreeMap;
use wot_types::Memory;

/// The sum at a key.
pub fn sum_of<K: Ord + Copy>(sums: &BTreeMap<K, u32, Global>, key: &K) -> u32
    ensures sum { result ≡ sum_at K.cmp sums.now.entries key.now }
{
    match sums.get(key) {
        Some(sum) => *sum,
        None => 0,
    }
}

/// Makes sure that a key has an entry. No sum changes.
pub fn make_room<K: Ord + Copy>(sums: &mut BTreeMap<K, u32, Global>, key: K) -> Result<(), Memory>
    ensures same { (q : K) → sum_at K.cmp sums.new.entries q ≡ sum_at K.cmp sums.old.entries q }
    ensures here { OnOk result (IsSome (get K.cmp sums.new key)) }
    ensures others { (q : K) → IsSome (get K.cmp sums.old q) → IsSome (get K.cmp sums.new q) }
{
    if sums.contains_key(&key) {
        return Ok(());
    }
    sums.insert(key, 0)?;
    Ok(())
}

/// Adds to the sum at a key that has an entry.
pub fn raise<K: Ord + Copy>(sums: &mut BTreeMap<K, u32, Global>, key: K, amount: u8)
    requires here { IsSome (get K.cmp sums.old key) }
    requires fits { sum_at K.cmp sums.old.entries key + amount < 2 ^ 32 }
    ensures raised { (q : K) → sum_at K.cmp sums.new.entries q
        ≡ sum_at K.cmp sums.old.entries q + (if is_eq (K.cmp key q) then amount else 0) }
    ensures others { (q : K) → IsSome (get K.cmp sums.old q) → IsSome (get K.cmp sums.new q) }
{
    let sum = sum_of(sums, &key) + amount as u32;
    let _ = sums.insert(key, sum);
}
