//! Verdicts by signature number, and on which certificate each signature is.
//!
//! It uses `wot_slots`, std's map, `keeping` and `listing`, and `specs/{Kept,Verdicts}.antt`.
//! `wot_keyring` keeps one such map for all certificates, within the limit on verdicts, and a dump prints it.
//! `wot_index` notes the certificates.
ghost use Rattle.std.specs.Prelude.{◌≡◌, ◌≢◌, ◌<◌, ◌+◌, ◌^◌, ◌↔◌, [], length, IsTrue, IfOk, OnOk, OnErr, Some, None};
ghost use Rattle.std.specs.Prelude.{is_some};
ghost use Rattle.std.specs.Iterator.{YieldsFirst, item_count};
ghost use Rattle.wot_verdict.specs.Verdicts.{verdict_at, with_verdict, without_verdict, holder_at};
ghost use Rattle.wot_verdict.specs.Verdicts.{AreSortedByNumber, ChangesAt, HoldsAt};

use crate::Verdict;
use crate::keeping::{clear_counted, hold_short, let_short_go, set_counted};
use crate::listing::next_verdict;
use crate::noted::{Noted, full_of, holder_of, short_of, verdict_of};
use std::alloc::Global;
use std::collections::BTreeMap;
use std::marker::Model;
use wot_slots::Slots;
use wot_types::{Fpr, Memory, SigNumber};

/// Verdicts by signature number, and on which certificate each signature is. Contracts see two lists of entries in the
/// order of the numbers.
#[derive(Drop)]
pub struct Verdicts {
    /// The verdicts, and the certificates of version 4.
    held: Slots<Noted>,
    /// The certificates of version 6.
    long: BTreeMap<SigNumber, Fpr, Global>,
    /// How many numbers have a verdict.
    count: usize,
}

impl Model for Verdicts {
    ghost use Rattle.wot_verdict.specs.Kept.{by_number, IsKept};
    ghost use Rattle.wot_verdict.specs.Verdicts.{ByNumber};

    ghost Value = { ByNumber };

    ghost view = { λ v. by_number v.held v.long.entries };

    ghost invariant = { λ v. IsKept v.held v.count };
}

impl Verdicts {
    /// No verdicts, and no certificates. Takes no memory.
    pub fn new(alloc: Global) -> Verdicts
        ensures none { result.entries ≡ [] }
        ensures nowhere { result.holders ≡ [] }
    {
        let held = Slots::new(alloc);
        let long = BTreeMap::new(alloc);
        Verdicts {
            held,
            long,
            count: 0,
        }
    }

    /// The verdict on a number.
    pub fn get(&self, number: &SigNumber) -> Option<Verdict>
        ensures found { result ≡ verdict_at self.now.entries number.now }
    {
        verdict_of(self.held.get(number))
    }

    /// The verdict on a number, and where to look first for the next one. It looks at `from` first. So lookups in the
    /// order in which numbers were noted are quick. Any place gives the same verdict; begin with 0.
    pub fn get_from(&self, number: &SigNumber, from: usize) -> (Option<Verdict>, usize)
        ensures found { result.0 ≡ verdict_at self.now.entries number.now }
    {
        let (noted, next) = self.held.get_from(number, from);
        (verdict_of(noted), next)
    }

    /// Sets the verdict on a number, in place of an earlier one. Returns whether something changed. After `Memory`
    /// nothing did. Whoever calls it knows that one more can be counted.
    pub fn set(&mut self, number: SigNumber, verdict: Verdict) -> Result<bool, Memory>
        requires few { length self.old.entries + 1 < 2 ^ 63 }
        ensures set { OnOk result (self.new.entries ≡ with_verdict self.old.entries number verdict) }
        ensures at_each { OnOk result (ChangesAt number (Some verdict) self.old.entries self.new.entries) }
        ensures changed { IfOk result
            (λ changed. IsTrue changed ↔ (verdict_at self.old.entries number ≢ Some verdict)) }
        ensures kept { OnErr result (self.new ≡ self.old) }
        ensures was_absent { OnErr result (verdict_at self.old.entries number ≡ None) }
        ensures holders { self.new.holders ≡ self.old.holders }
    {
        let old = self.held.get(&number);
        set_counted(&mut self.held, &mut self.count, number, old, verdict)?;
        Ok(differs(verdict_of(old), verdict))
    }

    /// Removes the verdict on a number. Returns whether there was one. Doesn't allocate.
    pub fn clear(&mut self, number: &SigNumber) -> bool
        ensures cleared { self.new.entries ≡ without_verdict self.old.entries number.now }
        ensures at_each { ChangesAt number.now None self.old.entries self.new.entries }
        ensures was_there { result ≡ is_some (verdict_at self.old.entries number.now) }
        ensures holders { self.new.holders ≡ self.old.holders }
    {
        clear_counted(&mut self.held, &mut self.count, number)
    }

    /// The certificate that the signature of a number is on.
    pub fn holder(&self, number: &SigNumber) -> Option<Fpr>
        ensures holder { result ≡ holder_at self.now.holders number.now }
    {
        match holder_of(self.held.get(number)) {
            Some(short) => Some(full_of(short)),
            None => self.long.get(number).copied(),
        }
    }

    /// Notes the certificate that the signature of a number is on. None is noted for it so far. After `Memory` nothing
    /// changed.
    pub fn hold(&mut self, number: SigNumber, fpr: Fpr) -> Result<(), Memory>
        requires absent { holder_at self.old.holders number ≡ None }
        ensures held { OnOk result (HoldsAt number (Some fpr) self.old.holders self.new.holders) }
        ensures kept { OnErr result (self.new ≡ self.old) }
        ensures verdicts { self.new.entries ≡ self.old.entries }
    {
        if let Some(short) = short_of(&fpr) {
            return hold_short(&mut self.held, number, short);
        }
        match self.long.insert(number, fpr) {
            Ok(_) => Ok(()),
            Err(_) => Err(Memory),
        }
    }

    /// Notes that the signature of a number is on no certificate. Doesn't allocate.
    pub fn let_go(&mut self, number: &SigNumber)
        ensures gone { HoldsAt number.now None self.old.holders self.new.holders }
        ensures verdicts { self.new.entries ≡ self.old.entries }
    {
        let_short_go(&mut self.held, number);
        let _ = self.long.remove(number);
    }

    /// How many numbers have a verdict.
    pub fn len(&self) -> usize
        ensures count { result ≡ length self.now.entries }
        ensures few { result < 2 ^ 63 }
        ensures sorted { AreSortedByNumber self.now.entries }
    {
        self.count
    }

    /// The numbers with their verdicts, in the order of the numbers.
    pub fn iter(&self) -> VerdictsIter<'_>
        ensures entries { result ≡ self.now.entries }
        ensures sorted { AreSortedByNumber self.now.entries }
    {
        VerdictsIter {
            held: &self.held,
            last: None,
        }
    }
}

fn differs(old: Option<Verdict>, new: Verdict) -> bool
    ensures { IsTrue result ↔ (old ≢ Some new) }
{
    old != Some(new)
}

/// Iterates over the verdicts of [`Verdicts`].
#[derive(Drop)]
pub struct VerdictsIter<'a> {
    held: &'a Slots<Noted>,
    /// The number of the last entry.
    last: Option<SigNumber>,
}

impl<'a> Model for VerdictsIter<'a> {
    ghost use Rattle.wot_slots.specs.Above.{AreNumbers};
    ghost use Rattle.wot_verdict.specs.Kept.{verdicts_above};
    ghost use Rattle.wot_verdict.specs.Verdicts.{Entries};

    ghost Value = { Entries };

    ghost view = { λ i. verdicts_above i.last i.held.now };

    ghost invariant = { λ i. AreNumbers i.held.now };
}

impl<'a> Iterator for VerdictsIter<'a> {
    type Item = (SigNumber, Verdict);

    ghost next_gives = { YieldsFirst (λ i. i) };

    ghost remaining = { item_count (λ i. i) };

    fn next(&mut self) -> Option<(SigNumber, Verdict)> {
        let Some((number, verdict)) = next_verdict(self.held, self.last) else {
            return None;
        };
        self.last = Some(number);
        Some((number, verdict))
    }
}
