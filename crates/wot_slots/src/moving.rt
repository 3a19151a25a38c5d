//! Moves what a row of slots has into a longer row, or into the tree if there is no empty slot, and what is in the tree
//! into empty slots. `slots` calls it when its row is full. The old row stays whole until the caller replaces it.
//!
//! It uses `row`, `near` and std's map. It walks over the entries of the old row, so that they stand in the
//! longer one in the order in which they came. The places of entries that were removed aren't taken over.
ghost use Rattle.std.specs.Prelude.{◌≡◌, None, IfOk, OnOk, OnErr};
ghost use Rattle.std.specs.Option.{IfNone, IfSome};
ghost use Rattle.wot_types.specs.declared.number.SigNumber.{SigNumber as TheNumber};
ghost use Rattle.wot_slots.specs.Near.{near_in, Moves, MovesOn, SaysSame};

use crate::near::{keep_near, near_at};
use crate::row::Row;
use std::alloc::Global;
use std::collections::BTreeMap;
use wot_types::{Memory, SigNumber};

/// Moves what the row has for a number.
fn move_number<T: Copy>(
    near: &Row<T>,
    number: &SigNumber,
    longer: &mut Row<T>,
    rest: &mut BTreeMap<SigNumber, T, Global>,
) -> Result<(), Memory>
    ensures moved { OnOk result
        (Moves number.now near.now.items longer.old.items rest.old.entries longer.new.items rest.new.entries) }
    ensures kept { OnErr result (rest.new.entries ≡ rest.old.entries) }
{
    let Some(value) = near_at(near, number) else {
        return Ok(());
    };
    if near_at(longer, number).is_some() {
        return Ok(());
    }
    if keep_near(longer, *number, value) {
        return Ok(());
    }
    match rest.insert(*number, value) {
        Ok(_) => Ok(()),
        Err(_) => Err(Memory),
    }
}

/// Moves what the row has for the number of the entry at this place, if there is one.
fn move_entry<T: Copy>(
    near: &Row<T>,
    at: usize,
    longer: &mut Row<T>,
    rest: &mut BTreeMap<SigNumber, T, Global>,
) -> Result<(), Memory>
    ensures moved { OnOk result
        (MovesOn at near.now longer.old.items rest.old.entries longer.new.items rest.new.entries) }
    ensures kept { OnErr result (rest.new.entries ≡ rest.old.entries) }
{
    let Some((number, _)) = near.entry(at) else {
        return Ok(());
    };
    move_number(near, number, longer, rest)
}

/// Moves what all entries have.
fn move_all<T: Copy>(
    near: &Row<T>,
    longer: &mut Row<T>,
    rest: &mut BTreeMap<SigNumber, T, Global>,
) -> Result<(), Memory>
    requires vacant { (n : TheNumber) → near_in longer.old.items n ≡ None }
    ensures moved { OnOk result (SaysSame near.now.items rest.old.entries longer.new.items rest.new.entries) }
    ensures kept { OnErr result (SaysSame near.now.items rest.old.entries near.now.items rest.new.entries) }
{
    near.slots_are_entries();
    let mut at = 0;
    'entries: while at < near.entries_len() {
        move_entry(near, at, longer, rest)?;
        at += 1;
    }
    Ok(())
}

/// Moves a number from the tree to an empty slot, if there is one.
fn bring<T: Copy>(
    longer: &mut Row<T>,
    rest: &mut BTreeMap<SigNumber, T, Global>,
    number: &SigNumber,
)
    ensures same { SaysSame longer.old.items rest.old.entries longer.new.items rest.new.entries }
{
    if near_at(longer, number).is_some() {
        return;
    }
    let Some(value) = rest.get(number).copied() else {
        return;
    };
    if keep_near(longer, *number, value) {
        let _ = rest.remove(number);
    }
}

/// Moves these numbers from the tree to empty slots.
fn bring_all<T: Copy>(
    longer: &mut Row<T>,
    rest: &mut BTreeMap<SigNumber, T, Global>,
    numbers: &[SigNumber],
)
    ensures same { SaysSame longer.old.items rest.old.entries longer.new.items rest.new.entries }
{
    let mut left = numbers;
    'numbers: while let Some((number, others)) = left.split_first() {
        bring(longer, rest, number);
        left = others;
    }
}

/// The numbers in the tree.
fn numbers_in<T: Copy>(
    alloc: Global,
    rest: &BTreeMap<SigNumber, T, Global>,
) -> Result<Vec<SigNumber>, Memory> {
    let mut numbers = Vec::new(alloc);
    'rest: for (number, _) in rest.iter() {
        numbers.push(*number)?;
    }
    Ok(numbers)
}

/// Moves from the tree what finds an empty slot now. Without memory it stays in the tree.
fn bring_back<T: Copy>(
    alloc: Global,
    longer: &mut Row<T>,
    rest: &mut BTreeMap<SigNumber, T, Global>,
)
    ensures same { SaysSame longer.old.items rest.old.entries longer.new.items rest.new.entries }
{
    let Ok(numbers) = numbers_in(alloc, rest) else {
        return;
    };
    bring_all(longer, rest, numbers.as_slice());
}

/// This many empty slots.
fn vacant<T: Copy>(alloc: Global, count: usize) -> Result<Row<T>, Memory>
    ensures vacant { IfOk result (λ made. (n : TheNumber) → near_in made.items n ≡ None) }
{
    Row::vacant(alloc, count)
}

/// A row of this many slots that has what the row and the tree have, but for what stays in the tree. Without memory
/// there is none, and the row is still whole.
pub(crate) fn longer<T: Copy>(
    alloc: Global,
    near: &Row<T>,
    rest: &mut BTreeMap<SigNumber, T, Global>,
    count: usize,
) -> Option<Row<T>>
    ensures longer { IfSome result (λ made. SaysSame near.now.items rest.old.entries made.items rest.new.entries) }
    ensures whole { IfNone result (SaysSame near.now.items rest.old.entries near.now.items rest.new.entries) }
{
    let Ok(mut made) = vacant(alloc, count) else {
        return None;
    };
    match move_all(near, &mut made, rest) {
        Ok(()) => {
            bring_back(alloc, &mut made, rest);
            Some(made)
        }
        Err(Memory) => None,
    }
}
