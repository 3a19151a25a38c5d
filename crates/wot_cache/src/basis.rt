//! What the answers to a set of questions depend on, so that it is known without asking again that none has changed.
//! The machine keeps one for all watches, and wot_watch_commands asks it and renews it. It uses the revisions of
//! views, the keyring's log of changes and the kept answers.
ghost use Rattle.std.specs.Prelude.{◌≡◌, false, true, IfSome};
ghost use Rattle.wot_answers.specs.Answers.{AreAllRight, IsRight};
ghost use Rattle.wot_cache.specs.Basis.{empty_at, is_in, AllIn, AreCalm, HasGrown, Includes, IsFreeOf, IsKeptSum};

use crate::engine::Engine;
use crate::view::View;
use std::alloc::Global;
use std::collections::BTreeSet;
use std::marker::Model;
use wot_answers::{AllAnswers, Asked, KeptAnswer, Looked, are_still};
use wot_keyring::Keyring;
use wot_types::{Fpr, ViewName};

/// If more fingerprints than this changed, the answers aren't checked one by one.
const MOST_CHANGED: usize = 64;

type Set = BTreeSet<Fpr, Global>;

/// The counts of changes and of revisions at which some answers were found, and the fingerprints that they depend on.
#[derive(Drop)]
pub struct Basis {
    changes: u64,
    revisions: u64,
    fprs: Set,
    // Whether one of them depends on the whole keyring.
    whole: bool,
}

impl Model for Basis {
    ghost use Rattle.wot_cache.specs.Basis.{Basis as TheBasis};

    ghost Value = { TheBasis };

    ghost view = { λ b. record { changes = b.changes; revisions = b.revisions; fprs = b.fprs.keys; whole = b.whole } };
}

impl Basis {
    /// The basis of no answers, at the engine's current counts. Takes no memory.
    pub fn new(alloc: Global, engine: &Engine) -> Basis
        ensures empty { result ≡ empty_at engine.now }
    {
        Basis {
            changes: engine.keyring().changes(),
            revisions: engine.revisions(),
            fprs: BTreeSet::new(alloc),
            whole: false,
        }
    }

    /// From now on it depends on the whole keyring.
    pub(crate) fn rest_on_all(&mut self)
        ensures whole { self.new ≡ record self.old { whole = true } }
    {
        self.whole = true;
    }

    /// Adds these fingerprints. False when out of memory: then only some of them are added.
    #[tactic(auto, using(crate::proofs::BasisStaysTrue::grown_by))]
    fn rest_on(&mut self, looked: &[Looked]) -> bool
        ensures all { result ≡ true → AllIn self.new.fprs looked.now }
        ensures grown { HasGrown self.old self.new }
    {
        add_all(&mut self.fprs, looked)
    }

    /// Whether no fingerprint of the basis has a stamp above its count of changes.
    #[tactic(auto, using(crate::proofs::BasisStaysTrue::calm_by))]
    fn is_calm(&self, keyring: &Keyring) -> bool
        ensures calm { result ≡ true → AreCalm keyring.now self.now.changes self.now.fprs }
    {
        match keyring.changed_since(self.changes) {
            Some(changed) => changed.len() <= MOST_CHANGED && is_free_of(&self.fprs, changed),
            None => false,
        }
    }

    /// Whether nothing that it depends on was altered since its count of changes. If so, the count becomes the current
    /// one, so that the next call has less to look at.
    pub(crate) fn still_current(&mut self, keyring: &Keyring, revisions: u64) -> bool
        ensures revisions { result ≡ true → self.old.revisions ≡ revisions }
        ensures calm { result ≡ true → AreCalm keyring.now self.old.changes self.old.fprs }
        ensures whole { result ≡ true → self.old.whole ≡ true → keyring.now.changes ≡ self.old.changes }
        ensures still { self.old.revisions ≡ revisions → self.old.changes ≡ keyring.now.changes → result ≡ true }
        ensures moved { result ≡ true → self.new ≡ record self.old { changes = keyring.now.changes } }
        ensures kept { result ≡ false → self.new ≡ self.old }
    {
        // Its contract says that stamps are at most the count of changes.
        let _count = keyring.len();
        let changes = keyring.changes();
        if self.revisions != revisions {
            return false;
        }
        if self.changes == changes {
            return true;
        }
        if self.whole || !self.is_calm(keyring) {
            return false;
        }
        self.changes = changes;
        true
    }
}

fn has(set: &Set, fpr: &Fpr) -> bool
    ensures has { result ≡ is_in fpr.now set.now.keys }
{
    set.contains(fpr)
}

/// Adds a fingerprint. False when out of memory.
fn add(set: &mut Set, fpr: Fpr) -> bool
    ensures has { result ≡ true → is_in fpr set.new.keys ≡ true }
    ensures grows { Includes set.old.keys set.new.keys }
{
    match set.insert(fpr) {
        Ok(_) => true,
        Err(_) => false,
    }
}

/// Adds these fingerprints. False when out of memory: then only some of them are added.
#[tactic(auto, using(crate::proofs::BasisStaysTrue::put_in))]
fn add_all(set: &mut Set, looked: &[Looked]) -> bool
    ensures all { result ≡ true → AllIn set.new.keys looked.now }
    ensures grows { Includes set.old.keys set.new.keys }
{
    let mut rest = looked;
    'rest: while let Some((first, later)) = rest.split_first() {
        if !add(set, first.fpr) {
            return false;
        }
        rest = later;
    }
    true
}

/// Whether none of these is in the set.
#[tactic(auto, using(crate::proofs::BasisStaysTrue::free_more))]
fn is_free_of(set: &Set, changed: &[(u64, Fpr)]) -> bool
    ensures free { result ≡ true → IsFreeOf set.now.keys changed.now }
{
    let mut rest = changed;
    'rest: while let Some((first, later)) = rest.split_first() {
        if has(set, &first.1) {
            return false;
        }
        rest = later;
    }
    true
}

/// The sum of a kept answer, if it is for this question and everything that it depends on is unchanged. The basis then
/// depends on that too.
#[tactic(auto, using(crate::proofs::BasisStaysTrue::sum_rests))]
fn sum_of(
    kept: &KeptAnswer,
    keyring: &Keyring,
    seen_from: &View,
    asked: &Asked<'_>,
    basis: &mut Basis,
) -> Option<u32>
    requires right { IsRight keyring.now kept.now }
    ensures rests { IfSome result (IsKeptSum keyring.now basis.new.fprs seen_from.now asked.now) }
    ensures grown { HasGrown basis.old basis.new }
{
    if !kept.is_of(asked, seen_from.time) {
        return None;
    }
    let Some(looked) = &kept.looked else {
        return None;
    };
    if !are_still(looked.as_slice(), keyring, &seen_from.roots)
        || !basis.rest_on(looked.as_slice())
    {
        return None;
    }
    Some(kept.answer.sum)
}

/// The sum of the answer that is kept for a question from an open view, if it is still valid.
pub(crate) fn kept_sum(
    answers: &AllAnswers,
    keyring: &Keyring,
    view: &ViewName,
    seen_from: &View,
    asked: &Asked<'_>,
    basis: &mut Basis,
) -> Option<u32>
    requires right { AreAllRight keyring.now answers.now.entries }
    ensures rests { IfSome result (IsKeptSum keyring.now basis.new.fprs seen_from.now asked.now) }
    ensures grown { HasGrown basis.old basis.new }
{
    let Some(of_view) = answers.get(view) else {
        return None;
    };
    match of_view.kept(asked) {
        Some(kept) => sum_of(kept, keyring, seen_from, asked, basis),
        None => None,
    }
}
