//! Asking the policy about new signatures: one question for each signature that the old certificate doesn't have.
//!
//! It uses `sig` and `specs/New.antt` and `specs/Judged.antt`. `Cert::merge` calls it after both are merged,
//! and `Cert::judge` for a certificate that is kept as it was read.
ghost use Rattle.std.specs.Prelude.{◌≡◌};
ghost use Rattle.wot_policy.specs.Kept.{IsFaithful, rows_of};
ghost use Rattle.wot_component.specs.Asking.{Asks};
ghost use Rattle.wot_component.specs.New.{judged_sigs, sound_new, judged_parts, sound_new_on, met, MarksFirst};
ghost use Rattle.wot_component.specs.New.{WeighsFirst};
ghost use Rattle.wot_component.specs.Certificate.{sig_cmp, part_cmp};
ghost use Rattle.wot_component.specs.Lent.{met_seen, met_part_seen};

use crate::part::order as order_parts;
use crate::sig::{judge_sig, order};
use crate::{Part, Sig};
use std::cmp::Ordering;
use wot_policy::{Ask, Policy};

/// The first of the signatures and the others, if the first has this one's body.
fn meet<'a>(sig: &Sig, old: &'a [Sig]) -> Option<(&'a Sig, &'a [Sig])>
    ensures { met_seen result ≡ met sig_cmp sig.now old.now }
{
    let (first, others) = old.split_first()?;
    if order(first, sig) == Ordering::Equal {
        Some((first, others))
    } else {
        None
    }
}

/// Marks a signature, unless it is the first of the old ones. Returns the old ones that are left.
fn judge_one<'a, F: Fn(Ask) -> bool>(
    sig: &mut Sig,
    old: &'a [Sig],
    policy: &mut Policy<F>,
) -> &'a [Sig]
    requires { IsFaithful F.Fn policy.old }
    ensures judged { MarksFirst (judged_sigs (rows_of policy.old)) sig.old sig.new old.now result.now }
    ensures asked { Asks policy.old policy.new (WeighsFirst sound_new sig.old old.now result.now) }
    ensures faithful { IsFaithful F.Fn policy.new }
{
    match meet(sig, old) {
        Some((_, others)) => others,
        None => {
            judge_sig(sig, policy);
            old
        }
    }
}

/// Marks the signatures that aren't among the old ones.
pub fn judge_new<F: Fn(Ask) -> bool>(sigs: &mut Vec<Sig>, old: &[Sig], policy: &mut Policy<F>)
    requires { IsFaithful F.Fn policy.old }
    ensures judged { sigs.new.items ≡ judged_sigs (rows_of policy.old) sigs.old.items old.now }
    ensures asked { Asks policy.old policy.new (λ k. k ≡ sound_new sigs.old.items old.now) }
    ensures faithful { IsFaithful F.Fn policy.new }
{
    let mut left = old;
    for at in 0..sigs.len() {
        let sig = &mut sigs[at];
        left = judge_one(sig, left, policy);
    }
}

/// The first of the parts and the others, if the first has this one's body.
fn meet_part<'a>(part: &Part, old: &'a [Part]) -> Option<(&'a Part, &'a [Part])>
    ensures { met_part_seen result ≡ met part_cmp part.now old.now }
{
    let (first, others) = old.split_first()?;
    if order_parts(first, part) == Ordering::Equal {
        Some((first, others))
    } else {
        None
    }
}

/// Marks the signatures on a part, except those on the first of the old parts if that has its body. Returns the old
/// parts that are left.
fn judge_one_part<'a, F: Fn(Ask) -> bool>(
    part: &mut Part,
    old: &'a [Part],
    policy: &mut Policy<F>,
) -> &'a [Part]
    requires { IsFaithful F.Fn policy.old }
    ensures judged { MarksFirst (judged_parts (rows_of policy.old)) part.old part.new old.now result.now }
    ensures asked { Asks policy.old policy.new (WeighsFirst sound_new_on part.old old.now result.now) }
    ensures faithful { IsFaithful F.Fn policy.new }
{
    match meet_part(part, old) {
        Some((first, others)) => {
            part.judge_new(first.sigs(), policy);
            others
        }
        None => {
            part.judge_new(&[], policy);
            old
        }
    }
}

/// Marks the signatures on the parts that aren't among the old ones.
pub fn judge_new_parts<F: Fn(Ask) -> bool>(
    parts: &mut Vec<Part>,
    old: &[Part],
    policy: &mut Policy<F>,
)
    requires { IsFaithful F.Fn policy.old }
    ensures judged { parts.new.items ≡ judged_parts (rows_of policy.old) parts.old.items old.now }
    ensures asked { Asks policy.old policy.new (λ k. k ≡ sound_new_on parts.old.items old.now) }
    ensures faithful { IsFaithful F.Fn policy.new }
{
    let mut left = old;
    for at in 0..parts.len() {
        let part = &mut parts[at];
        left = judge_one_part(part, left, policy);
    }
}
