//! Signatures as a list has them: in order, copied with their marks or without, marked by a policy, and merged.
//!
//! It uses `Sig` of `wot_kept_signature`, `wot_policy`, and `specs/Certificate.antt`, `specs/Copied.antt`
//! and `specs/Judged.antt`.
ghost use Rattle.std.specs.Prelude.{◌≡◌, OnOk, IfOk, [], ◌∷◌, ◌++◌, map, if◌then◌else◌};
ghost use Rattle.wot_component.specs.Certificate.{kept, sig_cmp, unite_sigs};
ghost use Rattle.wot_component.specs.Copied.{mark_under, copied};
ghost use Rattle.wot_component.specs.Judged.{judged_sig, if_sound};
ghost use Rattle.wot_component.specs.Marked.{mark_by, one_if_sound, is_admitted_as};
ghost use Rattle.wot_component.specs.Ranked.{IsRising};
ghost use Rattle.wot_policy.specs.Kept.{IsFaithful, rows_of, asked_more};

use crate::merging::{Ranked, put_merged};
use std::alloc::Global;
use std::cmp::Ordering;
use wot_kept_signature::Sig;
use wot_policy::{Ask, Policy};
use wot_signature::SigFacts;
use wot_types::Memory;

/// Whether copies keep their marks.
#[derive(Clone, Copy)]
pub enum Marks {
    Kept,
    Dropped,
}

/// Sets the mark by the policy, which is asked only about a well-formed signature.
pub(crate) fn judge_sig<F: Fn(Ask) -> bool>(sig: &mut Sig, policy: &mut Policy<F>)
    requires { IsFaithful F.Fn policy.old }
    ensures judged { sig.new ≡ judged_sig (rows_of policy.old) sig.old }
    ensures asked { policy.new ≡ asked_more (if_sound sig.old) policy.old }
    ensures faithful { IsFaithful F.Fn policy.new }
{
    let mark = judge_facts(sig.facts(), policy);
    sig.mark(mark);
}

/// Whether a signature with these facts is well-formed and admitted.
fn judge_facts<F: Fn(Ask) -> bool>(facts: Option<SigFacts>, policy: &mut Policy<F>) -> bool
    requires { IsFaithful F.Fn policy.old }
    ensures mark { result ≡ mark_by (rows_of policy.old) facts }
    ensures asked { policy.new ≡ asked_more (one_if_sound facts) policy.old }
    ensures faithful { IsFaithful F.Fn policy.new }
{
    match facts {
        Some(facts) => judge_said(facts, policy),
        None => false,
    }
}

fn judge_said<F: Fn(Ask) -> bool>(facts: SigFacts, policy: &mut Policy<F>) -> bool
    requires { IsFaithful F.Fn policy.old }
    ensures mark { result ≡ is_admitted_as (rows_of policy.old) facts }
    ensures asked { policy.new ≡ asked_more (if facts.sound then 1 else 0) policy.old }
    ensures faithful { IsFaithful F.Fn policy.new }
{
    if !facts.sound {
        return false;
    }
    policy.judge(Ask {
        kind: facts.kind,
        hash: facts.hash,
        made: facts.made,
    })
}

impl Ranked for Sig {
    ghost rank = { sig_cmp };

    ghost join = { kept };

    fn against(&self, other: &Sig) -> Ordering {
        order(self, other)
    }

    fn again(&self, alloc: Global) -> Result<Sig, Memory> {
        self.marked(alloc, self.admitted())
    }

    fn joined(&self, alloc: Global, _other: &Sig) -> Result<Sig, Memory> {
        self.marked(alloc, self.admitted())
    }
}

fn mark_of(sig: &Sig, marks: Marks) -> bool
    ensures { result ≡ mark_under marks sig.now.admitted }
{
    match marks {
        Marks::Kept => sig.admitted(),
        Marks::Dropped => false,
    }
}

/// Compares two signatures by their bodies.
pub(crate) fn order(a: &Sig, b: &Sig) -> Ordering
    ensures { result ≡ sig_cmp a.now b.now }
{
    a.body().cmp(b.body())
}

pub(crate) fn push_copy(
    alloc: Global,
    out: &mut Vec<Sig>,
    sig: &Sig,
    marks: Marks,
) -> Result<(), Memory>
    ensures { OnOk result (out.new.items ≡ out.old.items ++ copied marks sig.now ∷ []) }
{
    let copy = sig.marked(alloc, mark_of(sig, marks))?;
    out.push(copy)?;
    Ok(())
}

pub fn push_copies(
    alloc: Global,
    out: &mut Vec<Sig>,
    sigs: &[Sig],
    marks: Marks,
) -> Result<(), Memory>
    ensures { OnOk result (out.new.items ≡ out.old.items ++ map (copied marks) sigs.now) }
{
    let mut rest = sigs;
    'rest: while let Some((sig, others)) = rest.split_first() {
        push_copy(alloc, out, sig, marks)?;
        rest = others;
    }
    Ok(())
}

pub(crate) fn copy_sigs(alloc: Global, sigs: &[Sig], marks: Marks) -> Result<Vec<Sig>, Memory>
    ensures { IfOk result (λ v. v.items ≡ map (copied marks) sigs.now) }
{
    let mut out = Vec::new(alloc);
    push_copies(alloc, &mut out, sigs, marks)?;
    Ok(out)
}

/// Puts two sorted lists, merged, into an empty one.
pub fn put_union(alloc: Global, out: &mut Vec<Sig>, a: &[Sig], b: &[Sig]) -> Result<(), Memory>
    requires empty { out.old.items ≡ [] }
    requires a { IsRising sig_cmp a.now }
    requires b { IsRising sig_cmp b.now }
    ensures union { OnOk result (out.new.items ≡ unite_sigs a.now b.now) }
    ensures rises { OnOk result (IsRising sig_cmp out.new.items) }
{
    put_merged(alloc, out, a, b)
}
