//! Runs the commands that don't change cursors or watches: one function for each class, which chooses the command's own
//! function. Those are in the files next to this one. A new command of a class is one arm here.
ghost use Rattle.std.specs.Prelude.{◌≡◌, ◌≤◌, ◌<◌, ◌-◌, ◌^◌, ℕ, None, false, true, IfOk, OnOk, OnErr, is_ok};
ghost use Rattle.wot_types.specs.Limits.{standard_limits};
ghost use Rattle.wot_policy.specs.declared.rows.PolicyRows.{PolicyRows};
ghost use Rattle.wot_policy.specs.Kept.{rows_of};
ghost use Rattle.wot_script.specs.Replies.{is_short};
ghost use Rattle.wot_cache.specs.Marks.{IsRefreshed};
ghost use Rattle.wot_cache.specs.State.{StaysButMarks, state_of};
ghost use Rattle.wot_cache.specs.Views.{view_at};
ghost use Rattle.wot_plain.specs.declared.class.Class.TheVariants.{State as OfState};
ghost use Rattle.wot_plain.specs.declared.class.StateCommand.TheVariants as kinds;
ghost use Rattle.wot_plain.specs.declared.class.StateCommand.TheVariants.{View as On};
ghost use Rattle.wot_command.specs.Asked.{AsksBy, CallAsks, ChangeAsks};
ghost use Rattle.wot_plain.specs.Both.{ends};
ghost use Rattle.wot_plain.specs.Classes.{AnswersQuestion, IsSmall, IsWanted};
ghost use Rattle.wot_plain.specs.Classes.{change_of, reading, view_change_of};
ghost use Rattle.wot_command.specs.EdgeLines.{CommandMarks, QuestionMarks};
ghost use Rattle.wot_command.specs.Lasting.{CanChange, CanRun, ChangesHeld, ChangesOnce};
ghost use Rattle.wot_command.specs.Lasting.{IsJudging, IsRead, StaysJudging, Touches, removes};
ghost use Rattle.wot_plain.specs.Entry.{MayPutTo, entry_for, use_by, use_in};
ghost use Rattle.wot_plain.specs.Fresh.{IsMadeAnew, OnDump};
ghost use Rattle.wot_plain.specs.LineStep.{ComesTo};
ghost use Rattle.wot_plain.specs.Made.{ChangesMarks, MakesFor};
ghost use Rattle.wot_command.specs.CommandRun.{StateRunOver, over};
ghost use Rattle.wot_plain.specs.Session.{RevisedBy};

use crate::absence::absence;
use crate::answer::ask;
use crate::bindings::list;
use crate::checking::{ClaimedAbsence, check};
use crate::commands::{clear_verdict, close, import, remove, root, set_verdict, time};
use crate::listing::{dump, export, keys};
use crate::load::load;
use crate::pending::pending;
use crate::reasons::explain;
use crate::store::store;
use std::alloc::Global;
use wot_cache::{Asked, Engine};
use wot_certd::Shelf;
use wot_plain::{Change, Read, ShelfCall, StateCommand, ViewChange, ViewQuestion};
use wot_policy::{Ask, Policy};
use wot_script::Reply;
use wot_types::{Memory, Steps, ViewName};

/// Runs a command that doesn't change cursors or watches. If the reply isn't short, and after `Memory`, nothing has
/// changed but marks and the count of edges made. A command that only removes something takes no memory.
pub fn run_state_command<D: Shelf, F: Fn(Ask) -> bool>(
    alloc: Global,
    engine: &mut Engine,
    steps: &mut Steps,
    command: &StateCommand,
    shelf: &mut D,
    policy: &mut Policy<F>,
) -> Result<Reply, Memory>
    requires read { IsRead (OfState command.now) }
    requires ready { CanRun engine.old }
    requires judging { IsJudging F.Fn policy.old engine.old.keyring }
    ensures did { IfOk result (StateRunOver (rows_of policy.old) command.now
        (ends state_of engine) (over D.world D.faults shelf)) }
    ensures directory { Touches result (state_of engine.old) (use_by (OfState command.now)) D.world D.faults
        shelf.old shelf.new }
    ensures anew { OnOk result (OnDump (OfState command.now)
        ((rows : PolicyRows) → IsMadeAnew rows (state_of engine.old))) }
    ensures edges { OnOk result (CommandMarks engine.old (OfState command.now)) }
    ensures quiet { IfOk result (λ reply. is_short reply ≡ false → StaysButMarks engine.old engine.new) }
    ensures kept { OnErr result (StaysButMarks engine.old engine.new) }
    ensures sure { removes command.now ≡ true → is_ok result ≡ true }
    ensures makes { MakesFor result command.now engine.old engine.new steps.old.made steps.new.made }
    ensures changes { ChangesOnce engine.old engine.new }
    ensures turned { OnOk result (RevisedBy (OfState command.now)
        engine.old.views engine.old.revisions engine.new.views engine.new.revisions) }
    ensures asked { AsksBy result (OfState command.now) (state_of engine.old) (state_of engine.new)
        policy.old policy.new }
    ensures judging { StaysJudging F.Fn policy.old policy.new engine.new.keyring }
{
    match command {
        StateCommand::Change(what) => change(engine, what, policy),
        StateCommand::View(view, what) => change_view(engine, view, what),
        StateCommand::Question(view, what) => answer(alloc, engine, steps, view, what),
        StateCommand::Read(what) => read(alloc, engine, what),
        StateCommand::Shelf(what) => call(alloc, engine, what, shelf, policy),
    }
}

/// Runs a change of certificates or verdicts. After `Memory` nothing has changed.
fn change<F: Fn(Ask) -> bool>(
    engine: &mut Engine,
    what: &Change,
    policy: &mut Policy<F>,
) -> Result<Reply, Memory>
    requires small { IsSmall (OfState (kinds.Change what.now)) }
    requires ready { CanChange engine.old }
    requires judging { IsJudging F.Fn policy.old engine.old.keyring }
    ensures gives { IfOk result (λ reply.
        ComesTo (change_of (rows_of policy.old) (state_of engine.old) what.now) reply (state_of engine.new)) }
    ensures short { IfOk result (λ reply. is_short reply ≡ true) }
    ensures kept { OnErr result (engine.new ≡ engine.old) }
    ensures sure { removes (kinds.Change what.now) ≡ true → is_ok result ≡ true }
    ensures held { ChangesHeld engine.old engine.new }
    ensures asked { ChangeAsks result what.now (state_of engine.old) (state_of engine.new) policy.old policy.new }
    ensures judging { StaysJudging F.Fn policy.old policy.new engine.new.keyring }
{
    match what {
        Change::Import(octets) => import(engine, octets.items(), policy),
        Change::Remove(fpr) => Ok(remove(engine, fpr)),
        Change::Judge(number, verdict) => set_verdict(engine, *number, *verdict),
        Change::Unjudge(number) => Ok(clear_verdict(engine, number)),
    }
}

/// Runs a change of a view. After `Memory` nothing has changed.
fn change_view(engine: &mut Engine, view: &ViewName, what: &ViewChange) -> Result<Reply, Memory>
    requires standard { engine.old.keyring.limits ≡ standard_limits }
    requires turnable { engine.old.revisions.count < 2 ^ 64 - 1 }
    ensures gives { IfOk result (λ reply.
        ComesTo (view_change_of (state_of engine.old) view.now what.now) reply (state_of engine.new)) }
    ensures turned { RevisedBy (OfState (On view.now what.now))
        engine.old.views engine.old.revisions engine.new.views engine.new.revisions }
    ensures short { IfOk result (λ reply. is_short reply ≡ true) }
    ensures kept { OnErr result (engine.new ≡ engine.old) }
    ensures sure { removes (kinds.View view.now what.now) ≡ true → is_ok result ≡ true }
    ensures marks { (made : ℕ) → ChangesMarks result view.now what.now engine.old engine.new made made }
    ensures keyring { engine.new.keyring ≡ engine.old.keyring }
{
    match what {
        ViewChange::Time(t) => time(engine, view, *t),
        ViewChange::Root(fpr, amount) => root(engine, view, fpr, *amount),
        ViewChange::Close => Ok(close(engine, view)),
    }
}

/// Answers a question from a view.
fn answer(
    alloc: Global,
    engine: &mut Engine,
    steps: &mut Steps,
    view: &ViewName,
    what: &ViewQuestion,
) -> Result<Reply, Memory>
    requires wanted { IsWanted what.now }
    requires small { IsSmall (OfState (kinds.Question view.now what.now)) }
    ensures answers { IfOk result
        (AnswersQuestion (state_of engine.old) (view_at engine.old.views view.now) what.now) }
    ensures edges { OnOk result (QuestionMarks engine.old view.now what.now) }
    ensures keyring { engine.new.keyring ≡ engine.old.keyring }
    ensures views { engine.new.views ≡ engine.old.views }
    ensures refreshed { IsRefreshed result view.now engine.old engine.new steps.old.made steps.new.made }
{
    match what {
        ViewQuestion::Ask(target, wanted, uid) => {
            let asked = Asked {
                target,
                wanted: *wanted,
                uid: uid.octets(),
            };
            ask(alloc, engine, view, &asked, steps)
        }
        ViewQuestion::List(wanted) => list(alloc, engine, steps, view, *wanted),
        ViewQuestion::Explain(fpr, uid) => {
            explain(alloc, engine, steps, view, fpr, uid.octets())
        }
        ViewQuestion::Absence(target, wanted, uid) => {
            let asked = Asked {
                target,
                wanted: *wanted,
                uid: uid.octets(),
            };
            absence(alloc, engine, steps, view, &asked)
        }
        ViewQuestion::Check(target, claims, labels, uid) => {
            let claim = ClaimedAbsence {
                target,
                claims,
                labels,
                uid: uid.octets(),
            };
            check(alloc, engine, steps, view, &claim)
        }
    }
}

/// Reads the state.
fn read(alloc: Global, engine: &Engine, what: &Read) -> Result<Reply, Memory>
    requires standard { engine.now.keyring.limits ≡ standard_limits }
    ensures reply { IfOk result (λ reply. reply ≡ reading (state_of engine.now) what.now) }
    ensures anew { OnOk result (OnDump (OfState (kinds.Read what.now))
        ((rows : PolicyRows) → IsMadeAnew rows (state_of engine.now))) }
{
    match what {
        Read::Pending => pending(alloc, engine),
        Read::Keys => keys(alloc, engine),
        Read::Export(fpr) => export(alloc, engine, fpr),
        Read::Dump => dump(alloc, engine),
    }
}

/// Runs a call of the certificate directory. After `Memory` the engine is unchanged.
fn call<D: Shelf, F: Fn(Ask) -> bool>(
    alloc: Global,
    engine: &mut Engine,
    what: &ShelfCall,
    shelf: &mut D,
    policy: &mut Policy<F>,
) -> Result<Reply, Memory>
    requires ready { CanChange engine.old }
    requires judging { IsJudging F.Fn policy.old engine.old.keyring }
    ensures did { IfOk result (StateRunOver (rows_of policy.old) (kinds.Shelf what.now)
        (ends state_of engine) (over D.world D.faults shelf)) }
    ensures untouched { entry_for (state_of engine.old) (use_in what.now) ≡ None → shelf.new ≡ shelf.old }
    ensures entries { OnErr result (MayPutTo (state_of engine.old) (use_in what.now) (ends D.world shelf)) }
    ensures later { D.faults shelf.old ≤ D.faults shelf.new }
    ensures short { IfOk result (λ reply. is_short reply ≡ true) }
    ensures kept { OnErr result (engine.new ≡ engine.old) }
    ensures held { ChangesHeld engine.old engine.new }
    ensures asked { CallAsks result what.now (state_of engine.old) (state_of engine.new) policy.old policy.new }
    ensures judging { StaysJudging F.Fn policy.old policy.new engine.new.keyring }
{
    match what {
        ShelfCall::Load(name) => load(engine, name, shelf, policy),
        ShelfCall::Store(fpr) => store(alloc, engine, fpr, shelf),
    }
}
