//! A path and its steps, as answers show them.
//!
//! `specs/Path.antt` says which paths are valid. `wot_search` makes them; replies print their fields, so a field more
//! is a change of `docs/PROTOCOL.md`.
ghost use Rattle.std.specs.Prelude.{◌≡◌, IfOk};

use crate::StepList;
use wot_types::{Fpr, Memory};

/// What a path says about one of its edges.
#[derive(Clone, Copy, Debug, PartialEq, Eq)]
pub struct Step {
    pub issuer: Fpr,
    pub target: Fpr,
    /// The place of the user ID among the target's user IDs, ordered by octets.
    pub uid: u32,
    pub depth: u8,
    pub amount: u8,
}

/// A path from a root to the target, with its amount.
#[derive(Debug, Drop)]
pub struct Path {
    /// The least residual amount among the root's and the edges'.
    pub amount: u8,
    /// The issuer of the first step.
    pub root: Fpr,
    pub steps: StepList,
}

impl Path {
    /// A copy.
    pub fn duplicate(&self) -> Result<Path, Memory>
        ensures same { IfOk result (λ made. made ≡ self.now) }
    {
        let steps = self.steps.duplicate()?;
        Ok(Path {
            amount: self.amount,
            root: self.root,
            steps,
        })
    }
}
