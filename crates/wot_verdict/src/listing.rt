//! Finds the next number that has a verdict: numbers that only have a certificate are passed over.
//!
//! It uses `wot_slots` and `noted`. `verdicts` lists with it.
ghost use Rattle.wot_slots.specs.Above.{AreNumbers, IsNextEntry};
ghost use Rattle.wot_verdict.specs.Kept.{said_in};

use crate::Verdict;
use crate::noted::{Noted, verdict_of};
use wot_slots::Slots;
use wot_types::SigNumber;

/// The least number above the last one that has a verdict, or the least of all if there is no last one. Doesn't
/// allocate.
pub(crate) fn next_verdict(
    held: &Slots<Noted>,
    last: Option<SigNumber>,
) -> Option<(SigNumber, Verdict)>
    requires numbers { AreNumbers held.now }
    ensures next { IsNextEntry (said_in held.now) last result }
{
    let mut at = last;
    'numbers: while let Some((number, noted)) = held.next_above(at) {
        if let Some(verdict) = verdict_of(Some(noted)) {
            return Some((number, verdict));
        }
        at = Some(number);
    }
    None
}
