//! Residual amounts of roots and paths, by the definitions of `wot_edge`. `points` and `show` compare with them.
ghost use Rattle.std.specs.Prelude.{◌≡◌, ℕ, List};
ghost use Rattle.wot_edge.specs.Record.{Record};
ghost use Rattle.wot_edge.specs.Path.{least_left, root_left, start};
ghost use Rattle.wot_edge.specs.Sums.{use_in};
ghost use Rattle.wot_check.specs.Asked.{amount_left, question_of, used_in};

use crate::asked::Asked;
use wot_edge::{Step, Used, left_of_step, remaining};
use wot_types::Fpr;

/// The residual amount of a root.
pub fn left_of_root(asked: &Asked, fpr: &Fpr) -> u8
    ensures { (network : List ℕ → Record) → result ≡ root_left (question_of network asked.now)
        (used_in asked.now) fpr.now }
{
    remaining(asked.roots.get(fpr), asked.used.root(fpr))
}

/// The least of an amount and of the residual amounts of these steps.
fn least(used: &Used, amount: u8, steps: &[Step]) -> u8
    ensures { result ≡ least_left (use_in used.now) amount steps.now }
{
    let mut least = amount;
    let mut rest = steps;
    'rest: while let Some((step, later)) = rest.split_first() {
        least = least.min(left_of_step(used, step));
        rest = later;
    }
    least
}

/// The amount of a path from this root by these steps.
pub fn left_of_path(asked: &Asked, root: &Fpr, steps: &[Step]) -> u8
    ensures { (network : List ℕ → Record) → root.now ≡ start asked.now.target.now steps.now
        → result ≡ amount_left network asked.now steps.now }
{
    least(asked.used, left_of_root(asked, root), steps)
}
