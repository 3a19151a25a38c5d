//! A component of a certificate: a user ID, a user attribute or a subkey, with the signatures on it.
//!
//! It uses `sig`, and `specs/Certificate.antt`. `places` keeps three sorted lists of them.
ghost use Rattle.std.specs.Prelude.{◌≡◌, ◌<◌, OnOk, OnErr, IfOk, [], ◌∷◌, ◌++◌, map};
ghost use Rattle.wot_component.specs.Asking.{Asks};
ghost use Rattle.wot_component.specs.Certificate.{sig_cmp, part_cmp, part_with, unite_part, unite_parts};
ghost use Rattle.wot_component.specs.Copied.{copied};
ghost use Rattle.wot_component.specs.Fitting.{PartFits};
ghost use Rattle.wot_component.specs.Growing.{AsksForSigs, shrunk_part};
ghost use Rattle.wot_component.specs.Judged.{judged_sig};
ghost use Rattle.wot_component.specs.Totals.{FollowSigs};
ghost use Rattle.wot_component.specs.New.{judged_part, sound_new};
ghost use Rattle.wot_component.specs.Ranked.{IsRising};
ghost use Rattle.wot_policy.specs.Kept.{IsFaithful, rows_of};

use crate::growing::put_sigs;
use crate::judge::judge_new;
use crate::merging::{Ranked, put_merged};
use crate::shrinking::take_sigs_back;
use crate::sig::{Marks, copy_sigs, put_union as put_union_of_sigs};
use crate::{Adds, Sig};
use std::alloc::Global;
use std::cmp::Ordering;
use std::marker::Model;
use wot_policy::{Ask, Policy};
use wot_types::Memory;

/// A user ID, a user attribute or a subkey, and the signatures on it in the order of their bodies, without duplicates.
#[derive(Drop)]
pub struct Part {
    body: Vec<u8>,
    sigs: Vec<Sig>,
}

impl Model for Part {
    ghost use Rattle.wot_component.specs.Certificate.{Component, sig_cmp};
    ghost use Rattle.wot_component.specs.Ranked.{IsRising};

    ghost Value = { Component };

    ghost view = { λ a. record { body = a.body.items; sigs = a.sigs.items } };

    ghost invariant = { λ a. IsRising sig_cmp a.sigs.items };
}

impl Part {
    /// The octets of its packet's body.
    pub fn body(&self) -> &[u8]
        ensures body { result.now ≡ self.now.body }
    {
        &self.body
    }

    /// The signatures on it, in the order of their bodies.
    pub fn sigs(&self) -> &[Sig]
        ensures sigs { result.now ≡ self.now.sigs }
        ensures rises { IsRising sig_cmp self.now.sigs }
    {
        &self.sigs
    }

    /// The component with this body and these signatures.
    pub fn new(body: Vec<u8>, sigs: Vec<Sig>) -> Part
        requires rises { IsRising sig_cmp sigs.items }
        ensures part { result ≡ record { body = body.items; sigs = sigs.items } }
    {
        Part { body, sigs }
    }

    pub(crate) fn copied(&self, alloc: Global, marks: Marks) -> Result<Part, Memory>
        ensures { IfOk result (λ p. p ≡ part_with (copied marks) self.now) }
    {
        let body = Vec::from_slice(alloc, &self.body)?;
        let sigs = copy_sigs(alloc, &self.sigs, marks)?;
        Ok(Part { body, sigs })
    }

    /// Marks those of its signatures that aren't among the old ones.
    pub(crate) fn judge_new<F: Fn(Ask) -> bool>(&mut self, old: &[Sig], policy: &mut Policy<F>)
        requires { IsFaithful F.Fn policy.old }
        ensures judged { self.new ≡ judged_part (rows_of policy.old) old.now self.old }
        ensures asked { Asks policy.old policy.new (λ k. k ≡ sound_new self.old.sigs old.now) }
        ensures faithful { IsFaithful F.Fn policy.new }
    {
        judge_new(&mut self.sigs, old, policy);
    }

    /// Merges another part with the same body into this one, marks what is new, and returns the places of what was
    /// inserted. After `Memory` nothing changed.
    pub(crate) fn grow<F: Fn(Ask) -> bool>(
        &mut self,
        alloc: Global,
        totals: &mut Adds,
        other: &Part,
        policy: &mut Policy<F>,
    ) -> Result<Vec<usize>, Memory>
        requires faithful { IsFaithful F.Fn policy.old }
        requires fits { PartFits other.now }
        ensures united { OnOk result (self.new
            ≡ unite_part self.old (part_with (judged_sig (rows_of policy.old)) other.now)) }
        ensures same { OnErr result (self.new ≡ self.old) }
        ensures back { IfOk result (λ log. shrunk_part log.items self.new ≡ self.old) }
        ensures follow { OnOk result (FollowSigs totals.old totals.new self.old.sigs self.new.sigs) }
        ensures asked { AsksForSigs result policy.old policy.new self.old.sigs other.now.sigs }
        ensures faithful { IsFaithful F.Fn policy.new }
    {
        let mut log = Vec::new(alloc);
        match put_sigs(
            alloc,
            &mut self.sigs,
            &mut log,
            totals,
            other.sigs(),
            policy,
        ) {
            Ok(()) => Ok(log),
            Err(memory) => {
                take_sigs_back(&mut self.sigs, log);
                Err(memory)
            }
        }
    }

    /// Removes the signatures that were inserted at these places.
    pub(crate) fn take_back(&mut self, log: Vec<usize>)
        ensures { self.new ≡ shrunk_part log.items self.old }
    {
        take_sigs_back(&mut self.sigs, log);
    }

    /// Merges with a part of the same body into a new one.
    pub(crate) fn union(&self, alloc: Global, other: &Part) -> Result<Part, Memory>
        ensures { IfOk result (λ p. p ≡ unite_part self.now other.now) }
    {
        let body = Vec::from_slice(alloc, &self.body)?;
        let mut sigs = Vec::new(alloc);
        put_union_of_sigs(alloc, &mut sigs, &self.sigs, &other.sigs)?;
        Ok(Part { body, sigs })
    }
}

/// Compares two parts by their bodies.
pub(crate) fn order(a: &Part, b: &Part) -> Ordering
    ensures { result ≡ part_cmp a.now b.now }
{
    a.body().cmp(b.body())
}

pub(crate) fn push_copy(
    alloc: Global,
    out: &mut Vec<Part>,
    part: &Part,
    marks: Marks,
) -> Result<(), Memory>
    ensures { OnOk result (out.new.items ≡ out.old.items ++ part_with (copied marks) part.now ∷ []) }
{
    let copy = part.copied(alloc, marks)?;
    out.push(copy)?;
    Ok(())
}

impl Ranked for Part {
    ghost rank = { part_cmp };

    ghost join = { unite_part };

    fn against(&self, other: &Part) -> Ordering {
        order(self, other)
    }

    fn again(&self, alloc: Global) -> Result<Part, Memory> {
        self.copied(alloc, Marks::Kept)
    }

    fn joined(&self, alloc: Global, other: &Part) -> Result<Part, Memory> {
        self.union(alloc, other)
    }
}

pub fn push_copies(
    alloc: Global,
    out: &mut Vec<Part>,
    parts: &[Part],
    marks: Marks,
) -> Result<(), Memory>
    ensures { OnOk result (out.new.items ≡ out.old.items ++ map (part_with (copied marks)) parts.now) }
{
    let mut rest = parts;
    'rest: while let Some((part, others)) = rest.split_first() {
        push_copy(alloc, out, part, marks)?;
        rest = others;
    }
    Ok(())
}

/// Puts two sorted lists, merged, into an empty one.
pub fn put_union(alloc: Global, out: &mut Vec<Part>, a: &[Part], b: &[Part]) -> Result<(), Memory>
    requires empty { out.old.items ≡ [] }
    requires a { IsRising part_cmp a.now }
    requires b { IsRising part_cmp b.now }
    ensures union { OnOk result (out.new.items ≡ unite_parts a.now b.now) }
{
    put_merged(alloc, out, a, b)
}
