//! The residual amount of a root, by the definitions of `wot_edge`. `choose` compares with it, and so do the
//! offers of `wot_search`.
ghost use Rattle.std.specs.Prelude.{◌≡◌, ℕ, List};
ghost use Rattle.wot_edge.specs.Record.{Record};
ghost use Rattle.wot_edge.specs.Path.{root_left};
ghost use Rattle.wot_edge.specs.Sums.{use_in};
ghost use Rattle.wot_first_path.specs.Quest.{quest_of};

use crate::quest::Quest;
use wot_edge::remaining;
use wot_types::Fpr;

/// The residual amount of a root.
pub fn left_of_root(quest: &Quest, fpr: &Fpr) -> u8
    ensures { (network : List ℕ → Record)
        → result ≡ root_left (quest_of network quest.now).question (use_in quest.now.used.now) fpr.now }
{
    remaining(quest.asked.roots.get(fpr), quest.used.root(fpr))
}
