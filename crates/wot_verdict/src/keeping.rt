//! Changes what is noted for a number: a verdict, and how many there are, or a certificate of version 4.
//!
//! It uses `wot_slots`, `noted` and `specs/Kept.antt`. `verdicts` calls it. A change of one of the two
//! leaves the other alone.
ghost use Rattle.std.specs.Prelude.{◌≡◌, ◌<◌, ◌+◌, ◌-◌, ◌^◌, OnOk, OnErr, Some, None, is_some, cond, true};
ghost use Rattle.wot_slots.specs.Near.{held_of, HoldsSame, Puts};
ghost use Rattle.wot_verdict.specs.Kept.{said_in, verdicts_in, IsKept, KeepsCount, SameShorts, ShortsAt};
ghost use Rattle.wot_verdict.specs.Verdicts.{with_verdict as with_it, without_verdict as without_it, ChangesAt};

use crate::Verdict;
use crate::noted::{
    Noted, Short, verdict_of, with_holder, with_verdict, without_holder, without_verdict,
};
use wot_slots::{Slots, number_is_whole};
use wot_types::{Memory, SigNumber};

/// How many verdicts there are once one is set on a number that had this one before.
fn count_with(count: usize, old: Option<Verdict>) -> usize
    requires few { count + 1 < 2 ^ 63 }
    ensures counted { result ≡ cond (is_some old) count (count + 1) }
    ensures few { result < 2 ^ 63 }
{
    if old.is_some() { count } else { count + 1 }
}

/// How many there are once one is removed, if it was there.
fn count_without(count: usize, there: bool) -> usize
    ensures { result ≡ cond there (count - 1) count }
{
    if there {
        count.saturating_sub(1)
    } else {
        count
    }
}

/// Keeps this for a number for which that was noted. Replacing it doesn't allocate. On `Memory` nothing changed.
fn keep(
    held: &mut Slots<Noted>,
    number: SigNumber,
    old: Option<Noted>,
    noted: Noted,
) -> Result<(), Memory>
    requires old { old ≡ held_of held.old number }
    ensures put { OnOk result (Puts number (Some noted) held.old held.new) }
    ensures kept { OnErr result (HoldsSame held.old held.new) }
    ensures was_absent { OnErr result (held_of held.old number ≡ None) }
{
    let Some(_) = old else {
        return held.put(number, noted);
    };
    held.replace(number, noted);
    Ok(())
}

/// Keeps what is left for a number, which is nothing if nothing was noted for it. Doesn't allocate.
fn keep_left(held: &mut Slots<Noted>, number: &SigNumber, left: Option<Noted>)
    requires less { is_some left ≡ true → is_some (held_of held.old number.now) ≡ true }
    ensures put { Puts number.now left held.old held.new }
{
    match left {
        Some(noted) => held.replace(*number, noted),
        None => held.forget(number),
    }
}

/// Sets the verdict on a number for which this was noted. `Memory` comes only from the row of slots; nothing changed
/// then.
pub(crate) fn set_counted(
    held: &mut Slots<Noted>,
    count: &mut usize,
    number: SigNumber,
    old: Option<Noted>,
    verdict: Verdict,
) -> Result<(), Memory>
    requires kept { IsKept held.old count.old }
    requires few { count.old + 1 < 2 ^ 63 }
    requires old { old ≡ held_of held.old number }
    ensures kept { IsKept held.new count.new }
    ensures set { OnOk result (verdicts_in held.new ≡ with_it (verdicts_in held.old) number verdict) }
    ensures at_each { OnOk result (ChangesAt number (Some verdict) (verdicts_in held.old) (verdicts_in held.new)) }
    ensures same { OnErr result (verdicts_in held.new ≡ verdicts_in held.old) }
    ensures was_absent { OnErr result (said_in held.old number ≡ None) }
    ensures holders { SameShorts held.old held.new }
{
    number_is_whole(&number);
    let counted = count_with(*count, verdict_of(old));
    keep(held, number, old, with_verdict(old, verdict))?;
    *count = counted;
    Ok(())
}

/// Removes the verdict on a number. Returns whether there was one. Doesn't allocate.
pub(crate) fn clear_counted(held: &mut Slots<Noted>, count: &mut usize, number: &SigNumber) -> bool
    requires kept { IsKept held.old count.old }
    ensures kept { IsKept held.new count.new }
    ensures cleared { verdicts_in held.new ≡ without_it (verdicts_in held.old) number.now }
    ensures at_each { ChangesAt number.now None (verdicts_in held.old) (verdicts_in held.new) }
    ensures was_there { result ≡ is_some (said_in held.old number.now) }
    ensures holders { SameShorts held.old held.new }
{
    let old = held.get(number);
    let there = verdict_of(old).is_some();
    keep_left(held, number, without_verdict(old));
    *count = count_without(*count, there);
    there
}

/// Notes that the signature of a number is on this certificate. On `Memory` nothing changed.
pub(crate) fn hold_short(
    held: &mut Slots<Noted>,
    number: SigNumber,
    short: Short,
) -> Result<(), Memory>
    ensures held { OnOk result (ShortsAt number (Some short) held.old held.new) }
    ensures same { OnErr result (SameShorts held.old held.new) }
    ensures verdicts { verdicts_in held.new ≡ verdicts_in held.old }
    ensures kept { KeepsCount held.old held.new }
{
    number_is_whole(&number);
    let old = held.get(&number);
    keep(held, number, old, with_holder(old, short))
}

/// Notes that the signature of a number is on no certificate of version 4. Doesn't allocate.
pub(crate) fn let_short_go(held: &mut Slots<Noted>, number: &SigNumber)
    ensures gone { ShortsAt number.now None held.old held.new }
    ensures verdicts { verdicts_in held.new ≡ verdicts_in held.old }
    ensures kept { KeepsCount held.old held.new }
{
    let old = held.get(number);
    keep_left(held, number, without_holder(old));
}
