//! What each command that changes something does to the engine, and its reply: imports, removals, verdicts and views.
//! It uses wot_cache's calls and `Refused` of wot_plain for their errors.
ghost use Rattle.std.specs.Prelude.{◌≡◌, ◌<◌, ◌-◌, ◌^◌, [], length, None, true, IfOk, OnErr};
ghost use Rattle.wot_types.specs.Limits.{standard_limits};
ghost use Rattle.wot_policy.specs.Kept.{rows_of};
ghost use Rattle.wot_keyring_spec.specs.Kept.{StaysJudged};
ghost use Rattle.wot_script.specs.Replies.{is_short};
ghost use Rattle.wot_cache.specs.State.{marks_at, state_of, OtherMarksStay};
ghost use Rattle.wot_cache.specs.Revisions.{IsOneClosing, IsOneRevision};
ghost use Rattle.wot_cache.specs.Views.{view_at};
ghost use Rattle.wot_command.specs.Asked.{AsksForNew};
ghost use Rattle.wot_command.specs.Changes.{ChangesTo, ViewChangesTo};
ghost use Rattle.wot_command.specs.Lasting.{CanChange, ChangesHeld, IsJudging, StaysJudging};
ghost use Rattle.wot_plain.specs.Outcome.{remove as remove_of, set_verdict as set_verdict_of};
ghost use Rattle.wot_plain.specs.Outcome.{clear_verdict as clear_verdict_of, close as close_of};
ghost use Rattle.wot_plain.specs.declared.class.Change.TheVariants as changes;
ghost use Rattle.wot_plain.specs.declared.class.ViewChange.TheVariants as revisions;
ghost use Rattle.wot_plain.specs.LineStep.{ComesTo};

use wot_cache::{Engine, NoView};
use wot_keyring::Absent;
use wot_plain::{Missing, Refused, reply_to, reply_to_missing};
use wot_policy::{Ask, Policy};
use wot_script::Reply;
use wot_types::{Fpr, Memory, SigNumber, ViewName};
use wot_verdict::Verdict;

/// `import HEX`: merges the certificates of the octets, all or none, into the keyring. After `Memory` the engine is
/// unchanged.
pub fn import<F: Fn(Ask) -> bool>(
    engine: &mut Engine,
    octets: &[u8],
    policy: &mut Policy<F>,
) -> Result<Reply, Memory>
    requires ready { CanChange engine.old }
    requires small { length octets.now < 2 ^ 29 }
    requires judging { IsJudging F.Fn policy.old engine.old.keyring }
    ensures gives { IfOk result (λ reply.
        ChangesTo (rows_of policy.old) engine.old (changes.Import octets.now) reply engine.new) }
    ensures short { IfOk result (λ reply. is_short reply ≡ true) }
    ensures kept { OnErr result (engine.new ≡ engine.old) }
    ensures held { ChangesHeld engine.old engine.new }
    ensures asked { AsksForNew result (state_of engine.old) (state_of engine.new) policy.old policy.new }
    ensures judging { StaysJudging F.Fn policy.old policy.new engine.new.keyring }
{
    match engine.import(octets, policy) {
        Ok(counts) => Ok(Reply::Taken(counts.taken, counts.skipped, counts.fresh)),
        Err(refusal) => reply_to(Refused::Keyring(refusal)),
    }
}

/// `drop FPR`: removes a certificate, or replies that it is absent. Takes no memory.
pub fn remove(engine: &mut Engine, fpr: &Fpr) -> Reply
    requires ready { CanChange engine.old }
    ensures gives { ComesTo (remove_of (state_of engine.old) fpr.now) result (state_of engine.new) }
    ensures short { is_short result ≡ true }
    ensures held { ChangesHeld engine.old engine.new }
    ensures judged { StaysJudged engine.old.keyring engine.new.keyring }
{
    match engine.remove(fpr) {
        Ok(()) => Reply::Done,
        Err(Absent) => reply_to_missing(Missing::Named),
    }
}

/// `verdict NUM good FPR` and `verdict NUM bad`: sets the verdict on a signature, which needn't be held. Refused if the
/// number of verdicts is at its limit. After `Memory` the engine is unchanged.
pub fn set_verdict(
    engine: &mut Engine,
    number: SigNumber,
    verdict: Verdict,
) -> Result<Reply, Memory>
    requires ready { CanChange engine.old }
    ensures gives { IfOk result (λ reply.
        ComesTo (set_verdict_of (state_of engine.old) number verdict) reply (state_of engine.new)) }
    ensures short { IfOk result (λ reply. is_short reply ≡ true) }
    ensures kept { OnErr result (engine.new ≡ engine.old) }
    ensures held { ChangesHeld engine.old engine.new }
    ensures judged { StaysJudged engine.old.keyring engine.new.keyring }
{
    match engine.set_verdict(number, verdict) {
        Ok(()) => Ok(Reply::Done),
        Err(refusal) => reply_to(Refused::Keyring(refusal)),
    }
}

/// `verdict NUM none`: removes a verdict, or replies that it is absent. Takes no memory.
pub fn clear_verdict(engine: &mut Engine, number: &SigNumber) -> Reply
    requires ready { CanChange engine.old }
    ensures gives { ComesTo (clear_verdict_of (state_of engine.old) number.now) result (state_of engine.new) }
    ensures short { is_short result ≡ true }
    ensures held { ChangesHeld engine.old engine.new }
    ensures judged { StaysJudged engine.old.keyring engine.new.keyring }
{
    match engine.clear_verdict(number) {
        Ok(()) => Reply::Done,
        Err(Absent) => reply_to_missing(Missing::Named),
    }
}

/// `view V time T`: opens a view, or moves its time, in seconds since 1970. Refused if the number of views is at its
/// limit. After `Memory` the engine is unchanged.
pub fn time(engine: &mut Engine, view: &ViewName, t: u32) -> Result<Reply, Memory>
    requires standard { engine.old.keyring.limits ≡ standard_limits }
    requires turnable { engine.old.revisions.count < 2 ^ 64 - 1 }
    ensures gives { IfOk result (λ reply.
        ViewChangesTo engine.old view.now (revisions.Time t) reply engine.new) }
    ensures turned { IsOneRevision view.now engine.old.views engine.old.revisions
        engine.new.views engine.new.revisions }
    ensures short { IfOk result (λ reply. is_short reply ≡ true) }
    ensures kept { OnErr result (engine.new ≡ engine.old) }
    ensures marks { engine.new.marks ≡ engine.old.marks }
    ensures unmarked { view_at engine.old.views view.now ≡ None → marks_at engine.new view.now ≡ [] }
    ensures keyring { engine.new.keyring ≡ engine.old.keyring }
{
    match engine.view_time(view, t) {
        Ok(()) => Ok(Reply::Done),
        Err(fault) => reply_to(Refused::View(fault)),
    }
}

/// `view V root FPR A`: sets the amount of a root; 0 removes it. Refused if the view isn't open, if there is no root to
/// remove, or if the number of its roots is at its limit. After `Memory` the engine is unchanged.
pub fn root(engine: &mut Engine, view: &ViewName, fpr: &Fpr, amount: u8) -> Result<Reply, Memory>
    requires standard { engine.old.keyring.limits ≡ standard_limits }
    requires turnable { engine.old.revisions.count < 2 ^ 64 - 1 }
    ensures gives { IfOk result (λ reply.
        ViewChangesTo engine.old view.now (revisions.Root fpr.now amount) reply engine.new) }
    ensures turned { IsOneRevision view.now engine.old.views engine.old.revisions
        engine.new.views engine.new.revisions }
    ensures short { IfOk result (λ reply. is_short reply ≡ true) }
    ensures kept { OnErr result (engine.new ≡ engine.old) }
    ensures marks { engine.new.marks ≡ engine.old.marks }
    ensures keyring { engine.new.keyring ≡ engine.old.keyring }
{
    match engine.view_root(view, fpr, amount) {
        Ok(()) => Ok(Reply::Done),
        Err(fault) => reply_to(Refused::View(fault)),
    }
}

/// `view V close`: closes a view, or replies that it isn't open. Takes no memory.
pub fn close(engine: &mut Engine, view: &ViewName) -> Reply
    ensures gives { ComesTo (close_of (state_of engine.old) view.now) result (state_of engine.new) }
    ensures turned { IsOneClosing view.now engine.old.views engine.old.revisions engine.new.views engine.new.revisions }
    ensures short { is_short result ≡ true }
    ensures others { OtherMarksStay view.now engine.old engine.new }
    ensures keyring { engine.new.keyring ≡ engine.old.keyring }
{
    match engine.view_close(view) {
        Ok(()) => Reply::Done,
        Err(NoView) => reply_to_missing(Missing::View),
    }
}
