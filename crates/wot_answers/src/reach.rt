//! The table of reach that a view keeps with its answers, or the making of one as far as it has come. `answers` keeps
//! it. It is used only for the keyring, the roots and the time for which it was begun.
ghost use Rattle.std.specs.Prelude.{◌≡◌, true, IfSome};
ghost use Rattle.wot_reach.specs.Making.{IsMaking};
ghost use Rattle.wot_reach.specs.Reach.{IsReach};
ghost use Rattle.wot_network.specs.Net.{network_for};
ghost use Rattle.wot_answers.specs.Answers.{IsReaching};
ghost use Rattle.wot_answers.specs.Question.{present_in};

use crate::parts::Parts;
use wot_search::{Making, Reach};

/// A table of reach, or its making as far as it has come, and the count, revision and time for which it was begun.
#[derive(Drop)]
pub struct KeptReach {
    pub count: u64,
    pub revision: u64,
    pub time: u32,
    pub making: Making,
}

impl KeptReach {
    /// A making for the current keyring and time, and for the roots of this revision.
    pub fn new(parts: &Parts<'_>, revision: u64, making: Making) -> KeptReach
        requires making { IsMaking (network_for (present_in parts.now)) parts.now.roots.now making }
        ensures reaching { IsReaching parts.now.keyring.now parts.now.roots.now revision result }
    {
        KeptReach {
            count: parts.keyring.changes(),
            revision,
            time: parts.t,
            making,
        }
    }

    /// Whether it is for the current keyring and time, and for the roots of this revision.
    pub fn is_now(&self, parts: &Parts<'_>, revision: u64) -> bool
        requires reaching { IsReaching parts.now.keyring.now parts.now.roots.now revision self.now }
        ensures now { result ≡ true
            → IsMaking (network_for (present_in parts.now)) parts.now.roots.now self.now.making }
    {
        if self.count != parts.keyring.changes() || self.revision != revision {
            return false;
        }
        self.time == parts.t
    }

    /// The table, if it is finished, current, and for the roots of this revision.
    pub fn give(&self, parts: &Parts<'_>, revision: u64) -> Option<&Reach>
        requires reaching { IsReaching parts.now.keyring.now parts.now.roots.now revision self.now }
        ensures reach { IfSome result (λ r. IsReach (network_for (present_in parts.now)) parts.now.roots.now r.now) }
    {
        if self.is_now(parts, revision) {
            self.making.reach()
        } else {
            None
        }
    }
}
