//! Maps keyed by fingerprints, in the order of `wot_types`.
//!
//! They use std's map and `specs/Sums.antt`. `used` keeps the sums of roots in one, and `roots` and `plain`
//! their entries.
ghost use Rattle.std.specs.Prelude.{◌≡◌, ◌+◌, ◌<◌, ◌^◌, OnOk, OnErr, IsSome, Some, None};
ghost use Rattle.std.specs.BTreeMap.{insert_entry, is_at};
ghost use Rattle.std.specs.Map.{remove_entry};
ghost use Rattle.std.specs.Option.{option_copied};
ghost use Rattle.wot_types.specs.declared.fpr.Fpr.{Fpr as TheFpr};
ghost use Rattle.wot_types.specs.Fpr.{fpr_cmp};
ghost use Rattle.wot_edge.specs.Sums.{PutsAt, part_at, sum_at, value_at};

use crate::sums::{make_room, raise};
use std::alloc::Global;
use std::collections::BTreeMap;
use wot_types::{Fpr, Memory};

/// Keeps a value at a fingerprint, in place of an earlier one.
pub fn put<V: Drop>(map: &mut BTreeMap<Fpr, V, Global>, fpr: Fpr, value: V) -> Result<(), Memory>
    ensures entries { OnOk result (map.new.entries ≡ insert_entry fpr_cmp map.old.entries fpr value) }
    ensures gets { OnOk result (PutsAt map.old.entries map.new.entries fpr (Some value)) }
    ensures kept { OnErr result (map.new.entries ≡ map.old.entries) }
    ensures absent { OnErr result (value_at map.old.entries fpr ≡ None) }
{
    map.insert(fpr, value)?;
    Ok(())
}

/// Removes the value at a fingerprint.
pub fn take_out<V: Drop>(map: &mut BTreeMap<Fpr, V, Global>, fpr: &Fpr)
    ensures entries { map.new.entries ≡ remove_entry (is_at (fpr_cmp fpr.now)) map.old.entries }
    ensures gets { PutsAt map.old.entries map.new.entries fpr.now None }
{
    let _ = map.remove(fpr);
}

/// Makes sure that a fingerprint has an entry. No sum changes.
pub fn make_root_room(sums: &mut BTreeMap<Fpr, u32, Global>, fpr: Fpr) -> Result<(), Memory>
    ensures same { (q : TheFpr) → sum_at fpr_cmp sums.new.entries q ≡ sum_at fpr_cmp sums.old.entries q }
    ensures here { OnOk result (IsSome (value_at sums.new.entries fpr)) }
{
    make_room(sums, fpr)
}

/// Adds to the sum at a fingerprint that has an entry.
pub fn raise_root(sums: &mut BTreeMap<Fpr, u32, Global>, fpr: Fpr, amount: u8)
    requires here { IsSome (value_at sums.old.entries fpr) }
    requires fits { sum_at fpr_cmp sums.old.entries fpr + amount < 2 ^ 32 }
    ensures raised { (q : TheFpr) → sum_at fpr_cmp sums.new.entries q
        ≡ sum_at fpr_cmp sums.old.entries q + part_at fpr amount q }
{
    raise(sums, fpr, amount);
}

/// The value at a fingerprint.
pub fn find<'a, V>(map: &'a BTreeMap<Fpr, V, Global>, fpr: &Fpr) -> Option<&'a V>
    ensures found { option_copied result ≡ value_at map.now.entries fpr.now }
{
    map.get(fpr)
}
