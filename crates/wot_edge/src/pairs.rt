//! What a path uses of its pairs of issuer and target: its amount once for each pair, however many of its steps are of
//! it.
//!
//! It uses `sums` and `specs/Sums.antt`. `Used::add` calls it.
ghost use Rattle.std.specs.Prelude.{◌≡◌, ◌+◌, ◌<◌, ◌^◌, OnOk};
ghost use Rattle.std.specs.List.{list_any};
ghost use Rattle.wot_types.specs.Fpr.{same_fpr};
ghost use Rattle.wot_edge.specs.declared.path.Step.{Step as TheStep};
ghost use Rattle.wot_edge.specs.declared.used.Pair.{Pair as ThePair};
ghost use Rattle.wot_edge.specs.Record.{Has};
ghost use Rattle.wot_edge.specs.Path.{is_of};
ghost use Rattle.wot_edge.specs.Sums.{HasSum, RaisesAll, RaisesStep, added_at, kept_at, pair_of};

use crate::Step;
use crate::sums::{make_room, raise};
use crate::used::Pair;
use std::alloc::Global;
use std::collections::BTreeMap;
use wot_types::{Fpr, Memory, compare_fprs};

fn same(a: &Fpr, b: &Fpr) -> bool
    ensures same { result ≡ same_fpr a.now b.now }
{
    compare_fprs(a, b).is_eq()
}

fn is_pair(issuer: &Fpr, target: &Fpr, step: &Step) -> bool
    ensures pair { result ≡ is_of issuer.now target.now step.now }
{
    same(issuer, &step.issuer) && same(target, &step.target)
}

/// Whether a step is of this pair.
fn any_of(issuer: &Fpr, target: &Fpr, steps: &[Step]) -> bool
    ensures any { result ≡ list_any (is_of issuer.now target.now) steps.now }
{
    steps.iter().any(|step| is_pair(issuer, target, step))
}

fn pair_of_step(step: &Step) -> Pair
    ensures pair { result ≡ pair_of step.now }
{
    Pair {
        issuer: step.issuer,
        target: step.target,
    }
}

fn make_room_for(pairs: &mut BTreeMap<Pair, u32, Global>, step: &Step) -> Result<(), Memory>
    ensures same { (q : ThePair) → kept_at pairs.new.entries q ≡ kept_at pairs.old.entries q }
    ensures here { OnOk result (HasSum pairs.new.entries (pair_of step.now)) }
    ensures others { (q : ThePair) → HasSum pairs.old.entries q → HasSum pairs.new.entries q }
{
    make_room(pairs, pair_of_step(step))
}

/// Makes sure that the pair of each step has an entry. No sum changes.
pub fn make_rooms(pairs: &mut BTreeMap<Pair, u32, Global>, steps: &[Step]) -> Result<(), Memory>
    ensures same { (q : ThePair) → kept_at pairs.new.entries q ≡ kept_at pairs.old.entries q }
    ensures here { OnOk result ((step : TheStep) → Has steps.now step
        → HasSum pairs.new.entries (pair_of step)) }
{
    let mut rest = steps;
    'rest: while let Some((step, later)) = rest.split_first() {
        make_room_for(pairs, step)?;
        rest = later;
    }
    Ok(())
}

/// Adds to the sum of the step's pair, unless a later step is of that pair.
fn raise_step(pairs: &mut BTreeMap<Pair, u32, Global>, step: &Step, later: &[Step], amount: u8)
    requires here { HasSum pairs.old.entries (pair_of step.now) }
    requires fits { kept_at pairs.old.entries (pair_of step.now) + amount < 2 ^ 32 }
    ensures raised { RaisesStep pairs.old.entries pairs.new.entries amount step.now later.now }
    ensures others { (q : ThePair) → HasSum pairs.old.entries q → HasSum pairs.new.entries q }
{
    if !any_of(&step.issuer, &step.target, later) {
        raise(pairs, pair_of_step(step), amount);
    }
}

/// Adds to the sum of each pair of these steps, once.
pub fn raise_all(pairs: &mut BTreeMap<Pair, u32, Global>, steps: &[Step], amount: u8)
    requires here { (step : TheStep) → Has steps.now step → HasSum pairs.old.entries (pair_of step) }
    requires fits { (q : ThePair) → kept_at pairs.old.entries q + added_at amount steps.now q < 2 ^ 32 }
    ensures raised { RaisesAll pairs.old.entries pairs.new.entries amount steps.now }
{
    let mut rest = steps;
    'rest: while let Some((step, later)) = rest.split_first() {
        raise_step(pairs, step, later, amount);
        rest = later;
    }
}
