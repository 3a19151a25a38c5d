//! What the paths of an answer use of each pair and each root, so that later paths get only what is left.
//!
//! It uses `pairs` and `maps`, and `specs/Path.antt`. `wot_auth` adds each path to it before it asks for the
//! next.
ghost use Rattle.std.specs.Prelude.{◌≡◌, ◌<◌, ◌+◌, ◌^◌, OnOk, OnErr};
ghost use Rattle.wot_types.specs.declared.fpr.Fpr.{Fpr as TheFpr};
ghost use Rattle.wot_edge.specs.Path.{path_pair, path_root};
ghost use Rattle.wot_edge.specs.Sums.{PairsRise, PairsStay, RootsRise, RootsStay, pair_sum, root_sum};

use crate::Path;
use crate::maps::{make_root_room, raise_root};
use crate::pairs::{make_rooms, raise_all};
use std::alloc::Global;
use std::collections::BTreeMap;
use std::marker::Model;
use wot_types::{Fpr, Memory};

/// An issuer and a target.
#[derive(Clone, Copy, Debug, PartialEq, Eq, PartialOrd, Ord)]
pub struct Pair {
    pub issuer: Fpr,
    pub target: Fpr,
}

/// What paths use of each pair of issuer and target, and of each root.
#[derive(Drop)]
pub struct Used {
    pairs: BTreeMap<Pair, u32, Global>,
    roots: BTreeMap<Fpr, u32, Global>,
}

impl Model for Used {
    ghost use Rattle.wot_edge.specs.Sums.{Sums};

    ghost Value = { Sums };

    ghost view = { λ used. record { pairs = used.pairs.entries; roots = used.roots.entries } };
}

impl Used {
    /// Nothing used yet.
    pub fn new(alloc: Global) -> Used
        ensures pairs { (issuer target : TheFpr) → pair_sum result issuer target ≡ 0 }
        ensures roots { (fpr : TheFpr) → root_sum result fpr ≡ 0 }
    {
        Used {
            pairs: BTreeMap::new(alloc),
            roots: BTreeMap::new(alloc),
        }
    }

    /// What the paths with an edge from this issuer to this target use together.
    pub fn pair(&self, issuer: &Fpr, target: &Fpr) -> u32
        ensures sum { result ≡ pair_sum self.now issuer.now target.now }
    {
        let pair = Pair {
            issuer: *issuer,
            target: *target,
        };
        match self.pairs.get(&pair) {
            Some(sum) => *sum,
            None => 0,
        }
    }

    /// What the paths from this root use together.
    pub fn root(&self, fpr: &Fpr) -> u32
        ensures sum { result ≡ root_sum self.now fpr.now }
    {
        match self.roots.get(fpr) {
            Some(sum) => *sum,
            None => 0,
        }
    }

    /// Adds what a path uses: its amount of its root, and of each of its pairs once. After `Memory` no sum changed.
    pub fn add(&mut self, path: &Path) -> Result<(), Memory>
        requires pairs_fit { (issuer target : TheFpr)
            → pair_sum self.old issuer target + path_pair issuer target path.now < 2 ^ 32 }
        requires roots_fit { (fpr : TheFpr) → root_sum self.old fpr + path_root fpr path.now < 2 ^ 32 }
        ensures pairs { OnOk result (PairsRise self.old self.new path.now) }
        ensures roots { OnOk result (RootsRise self.old self.new path.now) }
        ensures pairs_kept { OnErr result (PairsStay self.old self.new) }
        ensures roots_kept { OnErr result (RootsStay self.old self.new) }
    {
        make_rooms(&mut self.pairs, path.steps.as_slice())?;
        make_root_room(&mut self.roots, path.root)?;
        raise_all(&mut self.pairs, path.steps.as_slice(), path.amount);
        raise_root(&mut self.roots, path.root, path.amount);
        Ok(())
    }
}
