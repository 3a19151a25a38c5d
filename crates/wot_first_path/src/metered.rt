//! A search with a limit on how often it looks. Every look is noted, and one look too many has an error of its own.
//!
//! Searches are generic over `Notes`; a caller reads from `left` why one ended. `wot_auth` bounds the cost of a
//! question by it.
ghost use Rattle.std.specs.Prelude.{◌≡◌, ◌≤◌, ◌⊎◌, ◌+◌, [], length, Some, OnOk};
ghost use Rattle.wot_types.specs.declared.fpr.Fpr.{Fpr as Print};
ghost use Rattle.wot_edge.specs.Record.{Has};
ghost use Rattle.wot_first_path.specs.Looked.{Widens};
ghost use Rattle.wot_first_path.specs.Metered.{looks_after, looks_in};

use crate::consulted::Consulted;
use crate::notes::Notes;
use std::alloc::Global;
use wot_types::{Fpr, Memory};

/// Why a metered search ended without an answer.
#[derive(Clone, Copy, Debug, PartialEq, Eq)]
pub enum LookFault {
    /// The limit on looks was reached.
    Spent,
    /// Out of memory.
    Memory,
}

/// Notes what a search looks at, up to a limit. A fingerprint that is looked at twice counts twice.
#[derive(Drop)]
pub struct Metered {
    pub consulted: Consulted,
    /// How many looks are left; `None` after one too many was asked for.
    pub left: Option<u64>,
}

impl Metered {
    /// No look yet.
    pub fn new(alloc: Global, left: u64) -> Metered
        ensures none { result.consulted ≡ [] }
        ensures left { result.left ≡ Some left }
    {
        Metered {
            consulted: Consulted::new(alloc),
            left: Some(left),
        }
    }
}

impl Notes for Metered {
    ghost noted = { λ metered fpr. Has metered.consulted fpr };

    ghost budget = { λ metered. looks_in metered.left };

    ghost total = { λ metered. length metered.consulted + looks_in metered.left };

    /// Refused if no look is left, or one was refused before.
    fn note(&mut self, fpr: &Fpr) -> Result<(), Memory>
        ensures has { OnOk result (Has self.new.consulted fpr.now) }
        ensures grows { Widens (Has self.old.consulted) (Has self.new.consulted) }
        ensures falls { looks_in self.new.left ≤ looks_in self.old.left }
        ensures paid { length self.new.consulted + looks_in self.new.left
            ≤ length self.old.consulted + looks_in self.old.left }
        ensures only { (other : Print) → Has self.new.consulted other
            → Has self.old.consulted other ⊎ (other ≡ fpr.now) }
        ensures left { self.new.left ≡ looks_after self.old.left }
    {
        self.left = match self.left {
            Some(left) => left.checked_sub(1),
            None => None,
        };
        if self.left.is_none() {
            return Err(Memory);
        }
        self.consulted.add(fpr)
    }
}
