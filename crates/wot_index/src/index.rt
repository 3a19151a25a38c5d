//! The index from signature numbers to certificates, so that a verdict finds its certificate without a walk over the
//! keyring. `wot_verdict` keeps it beside the verdicts, in one row of slots. `noting` and `forgetting` keep it in step
//! with the certificates, and `restamp` reads it. It is exact unless two certificates hold signatures of one number.
ghost use Rattle.std.specs.Prelude.{◌≡◌, ◌≢◌, ◌<◌, ◌&&◌, ◌++◌, ◌∷◌, [], true, vec_len, vec_capacity, MatchBool, OnOk};
ghost use Rattle.std.specs.Prelude.{None};
ghost use Rattle.wot_types.specs.declared.fpr.Fpr.{Fpr as TheFpr};
ghost use Rattle.wot_types.specs.declared.number.SigNumber.{SigNumber as TheNumber};
ghost use Rattle.wot_verdict.specs.Verdicts.{is_number};
ghost use Rattle.wot_keyring_spec.specs.Keyring.{is_fpr};
ghost use Rattle.wot_index.specs.Index.{holder_of, is_logged, Forgets, Notes, SaysSame, StillLogged};

use crate::forgetting::forget;
use std::alloc::Global;
use wot_types::{Fpr, Memory, SigNumber};
use wot_verdict::Verdicts;

/// On which certificate each signature is, beside the verdicts on signatures.
#[derive(Drop)]
pub struct Index {
    pub verdicts: Verdicts,
    /// False once a number was seen on two certificates, which takes a collision of SHA-256. What is noted means
    /// nothing from then on.
    pub exact: bool,
}

impl Index {
    /// The index of no certificates, and no verdicts. Doesn't allocate.
    pub fn new(alloc: Global) -> Index
        ensures empty { (n : TheNumber) → holder_of result.verdicts n ≡ None }
        ensures verdicts { result.verdicts.entries ≡ [] }
        ensures exact { result.exact ≡ true }
    {
        Index {
            verdicts: Verdicts::new(alloc),
            exact: true,
        }
    }
}

/// Logs a number. The log has room.
fn put_in_log(log: &mut Vec<SigNumber>, number: SigNumber)
    requires room { vec_len log.old < vec_capacity log.old }
    ensures logged { log.new.items ≡ log.old.items ++ number ∷ [] }
{
    let _ = log.push(number);
}

/// Whether the index stays exact when a number is noted again: it does for the same certificate.
fn stays_exact(exact: bool, before: Fpr, now: Fpr) -> bool
    ensures stays { MatchBool result ((exact ≡ true) × (before ≡ now)) (exact ≡ true → before ≢ now) }
{
    exact && before == now
}

/// Notes that a signature of this number is on the certificate of this fingerprint, and logs the number if it is new.
/// On `Memory` the log still says what was new.
pub fn note(
    index: &mut Index,
    log: &mut Vec<SigNumber>,
    number: SigNumber,
    fpr: Fpr,
) -> Result<(), Memory>
    ensures noted { OnOk result (Notes index.old index.new
        (λ (n : TheNumber) (q : TheFpr). is_number n number && is_fpr fpr q)) }
    ensures log { StillLogged index.old log.old.items index.new log.new.items }
    ensures verdicts { SaysSame index.old.verdicts index.new.verdicts }
{
    log.reserve(1)?;
    let Some(before) = index.verdicts.holder(&number) else {
        return note_new(index, log, number, fpr);
    };
    index.exact = stays_exact(index.exact, before, fpr);
    Ok(())
}

/// Notes and logs a number that isn't noted. The log has room.
fn note_new(
    index: &mut Index,
    log: &mut Vec<SigNumber>,
    number: SigNumber,
    fpr: Fpr,
) -> Result<(), Memory>
    requires room { vec_len log.old < vec_capacity log.old }
    requires absent { holder_of index.old.verdicts number ≡ None }
    ensures noted { OnOk result (Notes index.old index.new
        (λ (n : TheNumber) (q : TheFpr). is_number n number && is_fpr fpr q)) }
    ensures log { StillLogged index.old log.old.items index.new log.new.items }
    ensures verdicts { SaysSame index.old.verdicts index.new.verdicts }
{
    index.verdicts.hold(number, fpr)?;
    put_in_log(log, number);
    Ok(())
}

/// Removes all numbers of a log. Doesn't allocate.
pub fn forget_logged(verdicts: &mut Verdicts, mut log: Vec<SigNumber>)
    ensures forgotten { Forgets verdicts.old verdicts.new (λ n. is_logged n log.items) }
    ensures verdicts { SaysSame verdicts.old verdicts.new }
{
    'log: while let Some(number) = log.pop() {
        forget(verdicts, &number);
    }
}
