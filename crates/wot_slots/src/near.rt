//! A row of slots, each with a number and its value, so that most lookups need no walk over the tree.
//!
//! It uses `row` and `specs/Near.antt`. The first octets of a number say in which eight slots it may be.
//! `slots` keeps in its tree what finds no empty slot there. Only `keep_near` allocates, if an entry needs memory.
ghost use Rattle.std.specs.Prelude.{◌≡◌, ◌<◌, ◌≤◌, ◌+◌, ℕ, length, true, Some, None, MatchBool};
ghost use Rattle.std.specs.List.{slice_index_or};
ghost use Rattle.std.specs.Option.{option_copied, option_map, IfNone, IfSome};
ghost use Rattle.wot_slots.specs.Near.{held_for, near_in, place_in, word_in, DiffersAt, IsFirstOf, Replaces};

use crate::row::Row;
use std::cmp::Ordering;
use wot_types::{SigNumber, compare_numbers};

/// How many first four octets there are.
const WORDS: u128 = 4_294_967_296;

/// The first four octets, most significant first.
fn word_of(number: &SigNumber) -> u32
    ensures { result ≡ word_in number.now }
{
    let octets = &number.0;
    u32::from_be_bytes([octets[0], octets[1], octets[2], octets[3]])
}

/// The first slot of a number, if there are this many slots. Slots rise with the numbers, so that a listing in their
/// order finds each next one near the last one.
pub(crate) fn place_of(number: &SigNumber, count: usize) -> usize
    requires some { 0 < count }
    ensures place { result ≡ place_in count number.now }
    ensures within { result < count }
{
    (word_of(number) as u128 * count as u128 / WORDS) as usize
}

/// The end of the eight slots from this one on.
pub(crate) fn end_of(place: usize, count: usize) -> usize
    requires within { place < count }
    ensures some { place < result }
    ensures near { result ≤ place + 8 }
    ensures within { result ≤ count }
    ensures whole { (i : ℕ) → i < place + 8 → i < count → i < result }
{
    place.saturating_add(8).min(count)
}

/// The value of what was found, if it is of this number.
fn held_by<T: Copy>(found: Option<&(SigNumber, T)>, number: &SigNumber) -> Option<T>
    ensures held { result ≡ held_for number.now (option_copied found.entry) }
{
    let Some((other, value)) = found else {
        return None;
    };
    if compare_numbers(number, other) == Ordering::Equal {
        Some(*value)
    } else {
        None
    }
}

/// The value in the slot at this place, if it is the slot of this number.
fn held_at<T: Copy>(row: &Row<T>, at: usize, number: &SigNumber) -> Option<T>
    requires within { at < length row.now.items }
    ensures held { result ≡ held_for number.now (slice_index_or row.now.items at None) }
{
    held_by(row.slot(at), number)
}

/// The value of the entry at this place, if it is the entry of this number.
fn entry_at<T: Copy>(row: &Row<T>, at: usize, number: &SigNumber) -> Option<T>
    ensures found { IfSome result (λ value. near_in row.now.items number.now ≡ Some value) }
{
    row.entries_are_found();
    held_by(row.entry(at), number)
}

/// The first slot of a number, with the value there.
fn find<T: Copy>(row: &Row<T>, number: &SigNumber) -> Option<(usize, T)>
    ensures first { IfSome result (λ found. IsFirstOf number.now found.0 row.now.items) }
    ensures value { IfSome result (λ found.
        held_for number.now (slice_index_or row.now.items found.0 None) ≡ Some found.1) }
    ensures none { IfNone result (near_in row.now.items number.now ≡ None) }
{
    let count = row.len();
    if count == 0 {
        return None;
    }
    let place = place_of(number, count);
    let end = end_of(place, count);
    let mut at = place;
    'near: while at < end {
        if let Some(value) = held_at(row, at, number) {
            return Some((at, value));
        }
        at += 1;
    }
    None
}

/// The value that the row has for a number.
pub(crate) fn near_at<T: Copy>(row: &Row<T>, number: &SigNumber) -> Option<T>
    ensures found { result ≡ near_in row.now.items number.now }
{
    let Some((_, value)) = find(row, number) else {
        return None;
    };
    Some(value)
}

/// The value that the row has for a number, with the place after its entry. It looks at the entry at `from` first.
pub(crate) fn near_from<T: Copy>(
    row: &Row<T>,
    number: &SigNumber,
    from: usize,
) -> Option<(T, usize)>
    ensures found { option_map (λ found. found.0) result ≡ near_in row.now.items number.now }
{
    if let Some(value) = entry_at(row, from, number) {
        return Some((value, from.saturating_add(1)));
    }
    let Some(found) = find(row, number) else {
        return None;
    };
    let next = row.place_after(found.0);
    Some((found.1, next))
}

/// Whether the slot at this place is empty.
fn is_vacant<T: Copy>(row: &Row<T>, at: usize) -> bool
    requires within { at < length row.now.items }
    ensures vacant { result ≡ true → slice_index_or row.now.items at None ≡ None }
{
    row.slot(at).is_none()
}

/// The first empty slot from a place on.
fn vacant_from<T: Copy>(row: &Row<T>, from: usize, end: usize) -> Option<usize>
    requires within { end ≤ length row.now.items }
    ensures from { IfSome result (λ at. from ≤ at) }
    ensures end { IfSome result (λ at. at < end) }
    ensures vacant { IfSome result (λ at. slice_index_or row.now.items at None ≡ None) }
{
    let mut at = from;
    'near: while at < end {
        if is_vacant(row, at) {
            return Some(at);
        }
        at += 1;
    }
    None
}

/// Puts a value into an empty slot of a number for which the row has none. Returns whether there was such a slot, and
/// memory for an entry.
pub(crate) fn keep_near<T: Copy>(row: &mut Row<T>, number: SigNumber, value: T) -> bool
    requires absent { near_in row.old.items number ≡ None }
    ensures kept { MatchBool result
        (DiffersAt number (Some value) row.old.items row.new.items) (row.new.items ≡ row.old.items) }
{
    let count = row.len();
    if count == 0 {
        return false;
    }
    let place = place_of(&number, count);
    let end = end_of(place, count);
    let Some(at) = vacant_from(row, place, end) else {
        return false;
    };
    row.fill(at, number, value)
}

/// Replaces the value that the row has for a number. Returns whether it has one.
pub(crate) fn replace_near<T: Copy>(row: &mut Row<T>, number: SigNumber, value: T) -> bool
    ensures replaced { Replaces result number value row.old.items row.new.items }
{
    let Some((at, _)) = find(row, &number) else {
        return false;
    };
    row.replace(at, number, value);
    true
}

/// Removes a number from the row.
pub(crate) fn forget_near<T: Copy>(row: &mut Row<T>, number: &SigNumber)
    ensures forgotten { DiffersAt number.now None row.old.items row.new.items }
{
    let Some((at, _)) = find(row, number) else {
        return;
    };
    row.empty(at);
}
