//! Which number comes next above another one, in a row of slots and in a tree.
//!
//! It uses `near`, `row`, std's map and `specs/Above.antt`. Slots rise with the numbers, so a search in
//! the row begins at the place of the last number. It ends eight slots from the place of the best number so far, which
//! is at first the next one in the tree. So a walk over all numbers reads the row once, and some eight slots more for
//! each number, whatever the numbers are. Nothing here allocates, and nothing is kept from one search to the next.
ghost use Rattle.std.specs.Prelude.{◌≡◌, ◌<◌, ◌≤◌, ◌+◌, ℕ, length, slice_index, true, false};
ghost use Rattle.std.specs.Map.{lookup};
ghost use Rattle.std.specs.Option.{IfSome};
ghost use Rattle.wot_types.specs.declared.number.SigNumber.{SigNumber as TheNumber};
ghost use Rattle.wot_slots.specs.Above.{bound_above, is_above as above_it, is_below as below_it, IsBetter, IsNext};
ghost use Rattle.wot_slots.specs.Above.{IsNumber, IsRead};
ghost use Rattle.wot_slots.specs.Near.{holder_in, is_number, place_in};

use crate::near::{end_of, place_of};
use crate::row::Row;
use std::alloc::Global;
use std::cmp::Ordering;
use std::collections::BTreeMap;
use std::ops::Bound;
use wot_types::{SigNumber, compare_numbers};

fn are_octets(octets: [u8; 32])
    ensures octets { length octets ≡ 32 }
    ensures small { (i : ℕ) → slice_index octets i < 256 }
{
    let _octets = octets;
}

/// A law: a number has 32 octets.
pub fn number_is_whole(number: &SigNumber)
    ensures whole { IsNumber number.now }
{
    are_octets(number.0);
}

/// Whether a number is above the last one, or there is no last one.
fn is_above(number: &SigNumber, last: Option<SigNumber>) -> bool
    ensures { result ≡ above_it last number.now }
{
    match last {
        Some(last) => compare_numbers(&last, number) == Ordering::Less,
        None => true,
    }
}

/// Whether a number is below the best one, or there is no best one.
fn is_below(number: &SigNumber, best: Option<SigNumber>) -> bool
    ensures { result ≡ below_it best number.now }
{
    match best {
        Some(best) => compare_numbers(number, &best) == Ordering::Less,
        None => true,
    }
}

/// Where a search for a number above the last one begins.
fn start_of(last: Option<SigNumber>, count: usize) -> usize
    requires some { 0 < count }
    ensures start { (q : TheNumber) → IsNumber q → above_it last q ≡ true → result ≤ place_in count q }
{
    let Some(number) = last else {
        return 0;
    };
    number_is_whole(&number);
    place_of(&number, count)
}

/// Where it ends if this is the best number so far.
fn end_for(best: Option<SigNumber>, count: usize) -> usize
    requires some { 0 < count }
    ensures within { result ≤ count }
    ensures end { (i : ℕ) → i < count → IfSome best (λ b. i < place_in count b + 8) → i < result }
{
    let Some(number) = best else {
        return count;
    };
    end_of(place_of(&number, count), count)
}

/// Whether a number is one of those that a lookup finds at this place, is above the last one, and below the best one.
fn is_better(
    number: &SigNumber,
    at: usize,
    count: usize,
    last: Option<SigNumber>,
    best: Option<SigNumber>,
) -> bool
    requires within { at < count }
    ensures read { result ≡ true → IsRead count number.now at }
    ensures above { result ≡ true → above_it last number.now ≡ true }
    ensures below { result ≡ true → below_it best number.now ≡ true }
    ensures others { result ≡ false → IsRead count number.now at → above_it last number.now ≡ true
        → below_it best number.now ≡ false }
{
    let place = place_of(number, count);
    if at < place {
        return false;
    }
    if at >= end_of(place, count) {
        return false;
    }
    if !is_above(number, last) {
        return false;
    }
    is_below(number, best)
}

/// The best number, after a look at the slot at this place.
fn better<T: Copy>(
    row: &Row<T>,
    at: usize,
    last: Option<SigNumber>,
    best: Option<SigNumber>,
) -> Option<SigNumber>
    requires within { at < length row.now.items }
    ensures better { IsBetter at row.now.items last best result }
{
    let Some((number, _)) = row.slot(at) else {
        return best;
    };
    if is_better(number, at, row.len(), last, best) {
        number_is_whole(number);
        Some(*number)
    } else {
        best
    }
}

/// The bound above which the next number is.
fn bound_of(last: Option<SigNumber>) -> Bound<SigNumber>
    ensures { result ≡ bound_above last }
{
    match last {
        Some(number) => Bound::Excluded(number),
        None => Bound::Unbounded,
    }
}

/// The least number above the last one that the tree has.
fn next_far<T: Copy>(
    rest: &BTreeMap<SigNumber, T, Global>,
    last: Option<SigNumber>,
) -> Option<SigNumber>
    ensures next { IsNext (λ n. lookup (is_number n) rest.now.entries) last result }
    ensures whole { IfSome result IsNumber }
{
    let mut entries = rest.range((bound_of(last), Bound::Unbounded));
    match entries.next() {
        Some((number, _)) => {
            number_is_whole(number);
            Some(*number)
        }
        None => None,
    }
}

/// The least number above the last one that the row or the tree has.
pub(crate) fn next_number<T: Copy>(
    row: &Row<T>,
    rest: &BTreeMap<SigNumber, T, Global>,
    last: Option<SigNumber>,
) -> Option<SigNumber>
    ensures next { IsNext (holder_in row.now.items rest.now.entries) last result }
{
    let far = next_far(rest, last);
    let count = row.len();
    if count == 0 {
        return far;
    }
    let mut best = far;
    let mut at = start_of(last, count);
    let mut end = end_for(far, count);
    'slots: while at < end {
        best = better(row, at, last, best);
        end = end_for(best, count);
        at += 1;
    }
    best
}
