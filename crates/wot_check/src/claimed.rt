//! Claimed paths: what a client says about a path, which may be false.
//!
//! `specs/Claim.antt` says when a claim is right. `wot_command` makes them of the fields of `check`, and `absence`
//! prints those of an answer.
ghost use Rattle.std.specs.Prelude.{◌≡◌, ◌++◌, ◌∷◌, [], map, IfOk, OnOk, OnErr};
ghost use Rattle.wot_check.specs.Claim.{claim_of, claimed_step};

use std::alloc::Global;
use std::marker::Model;
use wot_edge::{Path, Step};
use wot_types::{Fpr, Memory};

/// A claimed step: its issuer, and the place of the certified user ID among the target's, ordered by octets. The target
/// is the issuer of the next step, or of the last step the target of the path.
#[derive(Clone, Copy, Debug, PartialEq, Eq)]
pub struct ClaimedStep {
    pub issuer: Fpr,
    pub place: u32,
}

/// A claimed path: its amount and its steps, from the root on.
#[derive(Debug, Drop)]
pub struct Claimed {
    amount: u8,
    steps: Vec<ClaimedStep, Global>,
}

impl Model for Claimed {
    ghost use Rattle.wot_check.specs.Claim.{Claim};

    ghost Value = { Claim };

    ghost view = { λ claimed. record { amount = claimed.amount; steps = claimed.steps.items } };
}

impl Claimed {
    /// A claim with this amount and no steps yet.
    pub fn new(alloc: Global, amount: u8) -> Claimed
        ensures amount { result.amount ≡ amount }
        ensures none { result.steps ≡ [] }
    {
        Claimed {
            amount,
            steps: Vec::new(alloc),
        }
    }

    /// The claim that a path is.
    pub fn of(alloc: Global, path: &Path) -> Result<Claimed, Memory>
        ensures claim { IfOk result (λ made. made ≡ claim_of path.now) }
    {
        let steps = claimed_steps(alloc, path.steps.as_slice())?;
        Ok(Claimed {
            amount: path.amount,
            steps,
        })
    }

    /// Appends a step. After `Memory` the claim is unchanged.
    pub fn push(&mut self, issuer: Fpr, place: u32) -> Result<(), Memory>
        ensures pushed { OnOk result
            (self.new.steps ≡ self.old.steps ++ record { issuer = issuer; place = place } ∷ []) }
        ensures amount { self.new.amount ≡ self.old.amount }
        ensures kept { OnErr result (self.new ≡ self.old) }
    {
        self.steps.push(ClaimedStep { issuer, place })?;
        Ok(())
    }

    /// The claimed amount.
    pub fn amount(&self) -> u8
        ensures amount { result ≡ self.now.amount }
    {
        self.amount
    }

    /// The claimed steps.
    pub fn steps(&self) -> &[ClaimedStep]
        ensures steps { result.now ≡ self.now.steps }
    {
        self.steps.as_slice()
    }
}

fn step_claimed(step: &Step) -> ClaimedStep
    ensures { result ≡ claimed_step step.now }
{
    ClaimedStep {
        issuer: step.issuer,
        place: step.uid,
    }
}

fn claimed_steps(alloc: Global, steps: &[Step]) -> Result<Vec<ClaimedStep>, Memory>
    ensures { IfOk result (λ made. made.items ≡ map claimed_step steps.now) }
{
    let mut made = Vec::new(alloc);
    let mut rest = steps;
    'rest: while let Some((step, later)) = rest.split_first() {
        made.push(step_claimed(step))?;
        rest = later;
    }
    Ok(made)
}
