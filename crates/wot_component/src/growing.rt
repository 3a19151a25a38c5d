//! Merging in place: what is new is inserted at its place, and logged, so that it can be undone.
//!
//! It uses `specs/Growing.antt`. `places` calls it for each list; `shrinking` undoes the log. What is already
//! there is neither copied nor walked over.
ghost use Rattle.std.specs.Prelude.{◌≡◌, ◌≤◌, ◌<◌, ◌+◌, ◌++◌, ◌∷◌, [], vec_len, vec_capacity};
ghost use Rattle.std.specs.Prelude.{IfOk, OnOk, OnErr};
ghost use Rattle.std.specs.List.{AllByRecursion, insert};
ghost use Rattle.wot_component.specs.Asking.{Asks};
ghost use Rattle.wot_component.specs.Certificate.{Signature as TheSig, Component, sig_cmp, part_cmp, kept};
ghost use Rattle.wot_component.specs.Certificate.{part_with, unite_part};
ghost use Rattle.wot_component.specs.Copied.{copied};
ghost use Rattle.wot_component.specs.declared.sig.Marks.TheVariants.{Dropped};
ghost use Rattle.wot_component.specs.Fitting.{SigFits, PartFits};
ghost use Rattle.wot_component.specs.Growing.{TellsPlace, parts_back, without_all};
ghost use Rattle.wot_component.specs.Growing.{sigs_grown, parts_with, parts_grown, sound_sigs};
ghost use Rattle.wot_component.specs.Growing.{AsksForSigs, AsksForPart, AsksForParts};
ghost use Rattle.wot_component.specs.Judged.{if_sound, judged_sig};
ghost use Rattle.wot_component.specs.New.{judged_part, sound_new};
ghost use Rattle.wot_component.specs.declared.growth.PartStep.TheVariants.{New};
ghost use Rattle.wot_component.specs.Ranked.{put, IsRising};
ghost use Rattle.wot_component.specs.Totals.{FollowParts, FollowSigs};
ghost use Rattle.wot_policy.specs.Kept.{IsFaithful, rows_of, asked_more};

use crate::growth::PartStep;
use crate::measure::{of_part, of_sig, with};
use crate::part::order as order_parts;
use crate::sig::{Marks, judge_sig, order};
use crate::{Adds, Part, Sig};
use std::alloc::Global;
use wot_policy::{Ask, Policy};
use wot_types::Memory;

/// The place at which a signature with this body is or would be inserted.
fn find_sig(sigs: &[Sig], sig: &Sig) -> Result<usize, usize>
    requires { IsRising sig_cmp sigs.now }
    ensures { (like : TheSig) → like.body ≡ sig.now.body → TellsPlace sig_cmp kept like sigs.now result }
{
    sigs.binary_search_by(|there| order(there, sig))
}

/// Inserts an item at a place. There has to be room.
fn put_in<T: Drop>(items: &mut Vec<T>, at: usize, item: T)
    requires within { at ≤ vec_len items.old }
    requires room { vec_len items.old < vec_capacity items.old }
    ensures put { items.new.items ≡ insert items.old.items at item }
{
    let _ = items.insert(at, item);
}

/// Logs a step. There has to be room.
fn note<T: Drop>(log: &mut Vec<T>, step: T)
    requires room { vec_len log.old < vec_capacity log.old }
    ensures logged { log.new.items ≡ log.old.items ++ step ∷ [] }
{
    let _ = log.push(step);
}

/// Marks a signature and inserts it at a place. There has to be room for it and for its log.
fn insert_judged<F: Fn(Ask) -> bool>(
    sigs: &mut Vec<Sig>,
    log: &mut Vec<usize>,
    at: usize,
    sig: Sig,
    policy: &mut Policy<F>,
)
    requires faithful { IsFaithful F.Fn policy.old }
    requires within { at ≤ vec_len sigs.old }
    requires room { vec_len sigs.old < vec_capacity sigs.old }
    requires log_room { vec_len log.old < vec_capacity log.old }
    ensures put { sigs.new.items ≡ insert sigs.old.items at (judged_sig (rows_of policy.old) sig) }
    ensures logged { log.new.items ≡ log.old.items ++ at ∷ [] }
    ensures asked { policy.new ≡ asked_more (if_sound sig) policy.old }
    ensures faithful { IsFaithful F.Fn policy.new }
{
    let mut judged = sig;
    judge_sig(&mut judged, policy);
    put_in(sigs, at, judged);
    note(log, at);
}

/// Inserts a marked signature at its place, unless one with its body is there. After `Memory` nothing was inserted.
fn put_sig<F: Fn(Ask) -> bool>(
    alloc: Global,
    sigs: &mut Vec<Sig>,
    log: &mut Vec<usize>,
    totals: &mut Adds,
    sig: &Sig,
    policy: &mut Policy<F>,
) -> Result<(), Memory>
    requires faithful { IsFaithful F.Fn policy.old }
    requires rises { IsRising sig_cmp sigs.old.items }
    requires fits { SigFits sig.now }
    ensures put { OnOk result (sigs.new.items
        ≡ put sig_cmp kept (judged_sig (rows_of policy.old) sig.now) sigs.old.items) }
    ensures same { OnErr result (sigs.new.items ≡ sigs.old.items) }
    ensures back { without_all log.new.items sigs.new.items ≡ without_all log.old.items sigs.old.items }
    ensures follow { OnOk result (FollowSigs totals.old totals.new sigs.old.items sigs.new.items) }
    ensures asked { Asks policy.old policy.new (λ k. k + sound_sigs sigs.old.items ≡ sound_sigs sigs.new.items) }
    ensures faithful { IsFaithful F.Fn policy.new }
{
    match find_sig(sigs, sig) {
        Ok(_) => Ok(()),
        Err(at) => {
            sigs.reserve(1)?;
            log.reserve(1)?;
            let copy = sig.marked(alloc, false)?;
            *totals = with(*totals, of_sig(sig));
            insert_judged(sigs, log, at, copy, policy);
            Ok(())
        }
    }
}

/// Inserts each of the second list, marked, at its place. After `Memory` the log undoes what was inserted.
pub fn put_sigs<F: Fn(Ask) -> bool>(
    alloc: Global,
    sigs: &mut Vec<Sig>,
    log: &mut Vec<usize>,
    totals: &mut Adds,
    more: &[Sig],
    policy: &mut Policy<F>,
) -> Result<(), Memory>
    requires faithful { IsFaithful F.Fn policy.old }
    requires rises { IsRising sig_cmp sigs.old.items }
    requires fit { AllByRecursion SigFits more.now }
    ensures union { OnOk result (sigs.new.items ≡ sigs_grown (rows_of policy.old) sigs.old.items more.now) }
    ensures back { without_all log.new.items sigs.new.items ≡ without_all log.old.items sigs.old.items }
    ensures follow { OnOk result (FollowSigs totals.old totals.new sigs.old.items sigs.new.items) }
    ensures asked { AsksForSigs result policy.old policy.new sigs.old.items more.now }
    ensures faithful { IsFaithful F.Fn policy.new }
{
    let mut left = more;
    'left: while let Some((sig, rest)) = left.split_last() {
        match put_sig(alloc, sigs, log, totals, sig, policy) {
            Ok(()) => {}
            Err(memory) => return Err(memory),
        }
        left = rest;
    }
    Ok(())
}

/// The place at which a component with this body is or would be inserted.
fn find_part(parts: &[Part], part: &Part) -> Result<usize, usize>
    requires { IsRising part_cmp parts.now }
    ensures { (like : Component) → like.body ≡ part.now.body → TellsPlace part_cmp unite_part like parts.now result }
{
    parts.binary_search_by(|there| order_parts(there, part))
}

/// Marks a component's signatures and inserts it at a place. There has to be room for it and for its log.
fn settle_part<F: Fn(Ask) -> bool>(
    parts: &mut Vec<Part>,
    log: &mut Vec<PartStep>,
    at: usize,
    part: Part,
    policy: &mut Policy<F>,
)
    requires faithful { IsFaithful F.Fn policy.old }
    requires within { at ≤ vec_len parts.old }
    requires room { vec_len parts.old < vec_capacity parts.old }
    requires log_room { vec_len log.old < vec_capacity log.old }
    ensures put { parts.new.items ≡ insert parts.old.items at (judged_part (rows_of policy.old) [] part) }
    ensures logged { log.new.items ≡ log.old.items ++ New at ∷ [] }
    ensures asked { Asks policy.old policy.new (λ k. k ≡ sound_new part.sigs []) }
    ensures faithful { IsFaithful F.Fn policy.new }
{
    let mut judged = part;
    judged.judge_new(&[], policy);
    put_in(parts, at, judged);
    note(log, PartStep::New(at));
}

/// A copy without marks, and room for it.
fn copy_ready(alloc: Global, parts: &mut Vec<Part>, part: &Part) -> Result<Part, Memory>
    ensures copy { IfOk result (λ c. c ≡ part_with (copied Dropped) part.now) }
    ensures items { parts.new.items ≡ parts.old.items }
    ensures len { vec_len parts.new ≡ vec_len parts.old }
    ensures room { OnOk result (vec_len parts.new < vec_capacity parts.new) }
{
    parts.reserve(1)?;
    let copy = part.copied(alloc, Marks::Dropped)?;
    Ok(copy)
}

/// Merges a component into the one with its body, or inserts it, with what is new marked. After `Memory` nothing was
/// inserted.
fn put_part<F: Fn(Ask) -> bool>(
    alloc: Global,
    parts: &mut Vec<Part>,
    log: &mut Vec<PartStep>,
    totals: &mut Adds,
    part: &Part,
    policy: &mut Policy<F>,
) -> Result<(), Memory>
    requires faithful { IsFaithful F.Fn policy.old }
    requires rises { IsRising part_cmp parts.old.items }
    requires fits { PartFits part.now }
    ensures put { OnOk result (parts.new.items ≡ parts_with (rows_of policy.old) parts.old.items part.now) }
    ensures same { OnErr result (parts.new.items ≡ parts.old.items) }
    ensures back { parts_back log.new.items parts.new.items ≡ parts_back log.old.items parts.old.items }
    ensures follow { OnOk result (FollowParts totals.old totals.new parts.old.items parts.new.items) }
    ensures asked { AsksForPart result policy.old policy.new parts.old.items part.now }
    ensures faithful { IsFaithful F.Fn policy.new }
{
    match log.reserve(1) {
        Ok(()) => {}
        Err(_) => return Err(Memory),
    }
    match find_part(parts, part) {
        Ok(at) => {
            let there = &mut parts[at];
            match there.grow(alloc, totals, part, policy) {
                Ok(grown) => {
                    note(log, PartStep::Grown(at, grown));
                    Ok(())
                }
                Err(memory) => Err(memory),
            }
        }
        Err(at) => match copy_ready(alloc, parts, part) {
            Ok(copy) => {
                *totals = with(*totals, of_part(part));
                settle_part(parts, log, at, copy, policy);
                Ok(())
            }
            Err(memory) => Err(memory),
        },
    }
}

/// Merges each of the second list into its place, marked if it is new. After `Memory` the log undoes what was inserted.
pub fn put_parts<F: Fn(Ask) -> bool>(
    alloc: Global,
    parts: &mut Vec<Part>,
    log: &mut Vec<PartStep>,
    totals: &mut Adds,
    more: &[Part],
    policy: &mut Policy<F>,
) -> Result<(), Memory>
    requires faithful { IsFaithful F.Fn policy.old }
    requires rises { IsRising part_cmp parts.old.items }
    requires fit { AllByRecursion PartFits more.now }
    ensures union { OnOk result (parts.new.items ≡ parts_grown (rows_of policy.old) parts.old.items more.now) }
    ensures back { parts_back log.new.items parts.new.items ≡ parts_back log.old.items parts.old.items }
    ensures follow { OnOk result (FollowParts totals.old totals.new parts.old.items parts.new.items) }
    ensures asked { AsksForParts result policy.old policy.new parts.old.items more.now }
    ensures faithful { IsFaithful F.Fn policy.new }
{
    let mut left = more;
    'left: while let Some((part, rest)) = left.split_last() {
        match put_part(alloc, parts, log, totals, part, policy) {
            Ok(()) => {}
            Err(memory) => return Err(memory),
        }
        left = rest;
    }
    Ok(())
}
