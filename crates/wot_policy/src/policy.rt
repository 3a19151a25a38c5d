//! A policy: a closure that says which signatures count, and how often it was asked.
//!
//! It uses `rows` and `specs/Kept.antt`. `wot_cert` asks it once about each new well-formed signature, so
//! a change here proves everything that imports again.
ghost use Rattle.std.specs.Prelude.{◌≡◌};
ghost use Rattle.wot_policy.specs.Admits.{admits};
ghost use Rattle.wot_policy.specs.Kept.{AnswersBy, IsFaithful, rows_of, asked_of, asked_more};

use crate::{Ask, PolicyRows};

/// A closure that answers by rows, and how often it was asked. No call returns the rows.
///
/// That it answers by them (`IsFaithful`) is a condition of `judge` and not an invariant, because neither a ghost field
/// nor a model's invariant can mention a bound on `Fn`.
#[derive(Drop)]
pub struct Policy<F> {
    judge: F,
    rows: PolicyRows,
    asked: u64,
}

impl<F: Fn(Ask) -> bool> Policy<F> {
    /// Keeps a closure that answers by these rows, as `move |ask| admits(&rows, ask)` does.
    pub fn new(rows: PolicyRows, judge: F) -> Policy<F>
        requires answers { AnswersBy F.Fn judge rows }
        ensures faithful { IsFaithful F.Fn result }
        ensures rows { rows_of result ≡ rows }
        ensures asked { asked_of result ≡ 0 }
    {
        Policy {
            judge,
            rows,
            asked: 0,
        }
    }

    /// Whether the policy's rows admit what is asked.
    pub fn judge(&mut self, ask: Ask) -> bool
        requires faithful { IsFaithful F.Fn self.old }
        ensures answer { result ≡ admits (rows_of self.old) ask }
        ensures asked_once { self.new ≡ asked_more 1 self.old }
        ensures faithful { IsFaithful F.Fn self.new }
    {
        self.asked = self.asked.saturating_add(1);
        (self.judge)(ask)
    }

    /// How often the policy was asked. The count stays at `u64::MAX`.
    pub fn asked(&self) -> u64
        ensures count { result ≡ asked_of self.now }
    {
        self.asked
    }
}
