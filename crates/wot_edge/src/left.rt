//! Residual amounts: what is left of an edge after what earlier paths use.
//!
//! It uses `used` and `specs/Path.antt`. `wot_search` and `wot_check` compare with them.
ghost use Rattle.std.specs.Prelude.{◌≡◌, ◌-◌};
ghost use Rattle.wot_edge.specs.Path.{step_left, step_of};
ghost use Rattle.wot_edge.specs.Sums.{use_in};

use crate::{EdgeFacts, Step, Used};

/// The step that a path shows for an edge.
pub fn step_from(edge: &EdgeFacts) -> Step
    ensures { result ≡ step_of edge.now }
{
    Step {
        issuer: edge.issuer,
        target: edge.target,
        uid: edge.uid,
        depth: edge.depth,
        amount: edge.amount,
    }
}

/// The residual amount after this use.
pub fn remaining(amount: u8, used: u32) -> u8
    ensures { result ≡ amount - used }
{
    u32::from(amount).saturating_sub(used) as u8
}

/// The residual amount of an edge.
pub fn left_of_step(used: &Used, step: &Step) -> u8
    ensures { result ≡ step_left (use_in used.now) step.now }
{
    remaining(step.amount, used.pair(&step.issuer, &step.target))
}
