//! The trait `Notes`: what a search does with each fingerprint that it looks at.
//!
//! `Consulted` keeps them, `Metered` counts them too, and `Unnoted` forgets them. Searches are generic over it.
ghost use Rattle.std.specs.Prelude.{◌≡◌, ◌≤◌, ◌⊎◌, ℕ, OnOk};
ghost use Rattle.wot_types.specs.declared.fpr.Fpr.{Fpr as Print};
ghost use Rattle.wot_edge.specs.Record.{Has};
ghost use Rattle.wot_first_path.specs.Looked.{Widens};

use crate::consulted::Consulted;
use wot_types::{Fpr, Memory};

/// What a search does with each fingerprint whose rows, validity or root amount it looks at.
pub trait Notes {
    // which fingerprints are noted
    ghost noted: { Self → Print → Type 0 };

    // how much it may still look at, if that is limited
    ghost budget: { Self → ℕ };

    // the same and how much it looked at, together
    ghost total: { Self → ℕ };

    /// Notes a look at a fingerprint.
    fn note(&mut self, fpr: &Fpr) -> Result<(), Memory>
        ensures has { OnOk result (noted self.new fpr.now) }
        ensures grows { Widens (noted self.old) (noted self.new) }
        ensures falls { budget self.new ≤ budget self.old }
        ensures paid { total self.new ≤ total self.old }
        ensures only { (other : Print) → noted self.new other → noted self.old other ⊎ (other ≡ fpr.now) };
}

impl Notes for Consulted {
    ghost noted = { λ set fpr. Has set fpr };

    ghost budget = { λ set. 0 };

    ghost total = { λ set. 0 };

    fn note(&mut self, fpr: &Fpr) -> Result<(), Memory> {
        self.add(fpr)
    }
}

/// Keeps nothing and takes no memory.
#[derive(Clone, Copy)]
pub struct Unnoted;

impl Notes for Unnoted {
    ghost noted = { λ nothing fpr. Unit {0} };

    ghost budget = { λ nothing. 0 };

    ghost total = { λ nothing. 0 };

    fn note(&mut self, fpr: &Fpr) -> Result<(), Memory> {
        Ok(())
    }
}
