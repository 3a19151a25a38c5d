//! What a merge of lists would add, without merging: how many components, signatures and octets.
//!
//! It uses the order of both lists and `specs/Sizes.antt`. `wot_cert` adds it up for a certificate; the program
//! itself learns from the log of a merge what it added.
ghost use Rattle.std.specs.Prelude.{◌<◌, ◌^◌, ◌+◌};
ghost use Rattle.std.specs.List.{AllByRecursion};
ghost use Rattle.wot_component.specs.Certificate.{sig_cmp, part_cmp, unite_sigs, unite_parts};
ghost use Rattle.wot_component.specs.Counts.{sum_of};
ghost use Rattle.wot_component.specs.Fitting.{SigFits, PartFits};
ghost use Rattle.wot_component.specs.Ranked.{IsRising};
ghost use Rattle.wot_component.specs.Sizes.{sig_size, part_size, part_items, part_signatures};
ghost use Rattle.wot_component.specs.Sizes.{BringsSigs, BringsParts, Weighs, IsSum, IsFew};

use crate::part::order as order_parts;
use crate::sig::order;
use crate::sizes::{packet_octets, part_octets};
use crate::{Part, Sig};
use std::cmp::Ordering;

/// What a merge adds.
#[derive(Clone, Copy, Debug, PartialEq, Eq)]
pub struct Adds {
    /// How many keys, components and signatures.
    pub items: u64,
    /// How many signatures.
    pub signatures: u64,
    /// How many octets of text.
    pub octets: u64,
}

/// Adds nothing.
pub(crate) const NOTHING: Adds = Adds {
    items: 0,
    signatures: 0,
    octets: 0,
};

/// The sum of both.
pub fn plus(a: Adds, b: Adds) -> Adds
    requires { IsFew (2 ^ 64) a b }
    ensures { IsSum result a b }
{
    Adds {
        items: a.items + b.items,
        signatures: a.signatures + b.signatures,
        octets: a.octets + b.octets,
    }
}

fn of_sig(sig: &Sig) -> Adds
    requires { SigFits sig.now }
    ensures { Weighs (λ _. 1) (λ _. 1) sig_size result sig.now }
{
    Adds {
        items: 1,
        signatures: 1,
        octets: packet_octets(sig.body()),
    }
}

/// What the second list adds to the first.
pub fn added_sigs(a: &[Sig], b: &[Sig]) -> Adds
    requires a { IsRising sig_cmp a.now }
    requires b { IsRising sig_cmp b.now }
    requires fit { AllByRecursion SigFits b.now }
    requires few { sum_of sig_size (unite_sigs a.now b.now) < 2 ^ 63 }
    ensures { BringsSigs result a.now (unite_sigs a.now b.now) }
{
    let mut adds = NOTHING;
    let mut left = a;
    let mut right = b;
    'walk: while let Some((y, ys)) = right.split_first() {
        let Some((x, xs)) = left.split_first() else {
            adds = plus(adds, of_sig(y));
            right = ys;
            continue;
        };
        match order(x, y) {
            Ordering::Less => left = xs,
            Ordering::Equal => {
                left = xs;
                right = ys;
            }
            Ordering::Greater => {
                adds = plus(adds, of_sig(y));
                right = ys;
            }
        }
    }
    adds
}

fn of_part(part: &Part) -> Adds
    requires fits { PartFits part.now }
    requires few { part_size part.now < 2 ^ 63 }
    ensures { Weighs part_items part_signatures part_size result part.now }
{
    let count = part.sigs().len() as u64;
    Adds {
        items: 1 + count,
        signatures: count,
        octets: part_octets(part),
    }
}

/// What the second list adds to the first.
pub fn added_parts(a: &[Part], b: &[Part]) -> Adds
    requires a { IsRising part_cmp a.now }
    requires b { IsRising part_cmp b.now }
    requires fit { AllByRecursion PartFits b.now }
    requires few { sum_of part_size (unite_parts a.now b.now) < 2 ^ 63 }
    ensures { BringsParts result a.now (unite_parts a.now b.now) }
{
    let mut adds = NOTHING;
    let mut left = a;
    let mut right = b;
    'walk: while let Some((y, ys)) = right.split_first() {
        let Some((x, xs)) = left.split_first() else {
            adds = plus(adds, of_part(y));
            right = ys;
            continue;
        };
        match order_parts(x, y) {
            Ordering::Less => left = xs,
            Ordering::Equal => {
                adds = plus(adds, added_sigs(x.sigs(), y.sigs()));
                left = xs;
                right = ys;
            }
            Ordering::Greater => {
                adds = plus(adds, of_part(y));
                right = ys;
            }
        }
    }
    adds
}
