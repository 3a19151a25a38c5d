//! Reads a line as a command, and runs it by its class, in wot_command, wot_cursor_commands or wot_watch_commands. A
//! further class needs an arm of `run_class`. Both functions work on the parts of a machine, whose invariant need not
//! hold meanwhile.
ghost use Rattle.std.specs.Prelude.{◌≡◌, ◌≤◌, length, false, true, IfOk, OnOk, OnErr, is_ok};
ghost use Rattle.wot_policy.specs.declared.rows.PolicyRows.{PolicyRows};
ghost use Rattle.wot_policy.specs.Kept.{rows_of};
ghost use Rattle.wot_script.specs.Grammar.{command_of};
ghost use Rattle.wot_script.specs.Replies.{HasWords, is_short};
ghost use Rattle.wot_cache.specs.State.{state_of};
ghost use Rattle.wot_command.specs.Asked.{AsksBy, LineAsks};
ghost use Rattle.wot_plain.specs.Classes.{IsFit, IsSmall};
ghost use Rattle.wot_command.specs.EdgeLines.{CommandMarks, LineMarks};
ghost use Rattle.wot_command.specs.Lasting.{CanRun, IsJudging, StaysJudging, Touches};
ghost use Rattle.wot_plain.specs.Entry.{use_by, use_of};
ghost use Rattle.wot_command.specs.CommandRun.{over};
ghost use Rattle.wot_machine.specs.Stepped.{ClassRunsIn, PartsMake, RunsIn};
ghost use Rattle.wot_machine.specs.Machine.{IsDue, is_removal, machine_of, RunsOnce, StaysKept};
ghost use Rattle.wot_plain.specs.Fresh.{IsDump, OnDump, IsMadeAnew};
ghost use Rattle.wot_plain.specs.Both.{ends};
ghost use Rattle.wot_plain.specs.Made.{Makes};

use std::alloc::Global;
use wot_cache::Engine;
use wot_certd::Shelf;
use wot_command::run_state_command;
use wot_cursor::Cursors;
use wot_cursor_commands::run_cursor_command;
use wot_plain::{Class, DraftReply, alone, classify, without_move};
use wot_policy::{Ask, Policy};
use wot_script::{LineFault, Reply, read_line};
use wot_types::{Memory, Steps};
use wot_watch::Watches;
use wot_watch_commands::watch;

/// What a line works on: everything that a machine keeps, except what its watches depend on.
#[derive(Drop)]
pub(crate) struct Inner {
    pub(crate) alloc: Global,
    pub(crate) engine: Engine,
    pub(crate) cursors: Cursors,
    pub(crate) watches: Watches,
    pub(crate) steps: Steps,
}

impl Inner {
    /// Does what a line asks for. A command whose reply may be long changes nothing, except that a cursor moves once
    /// the reply is written.
    pub(crate) fn answer<D: Shelf, F: Fn(Ask) -> bool>(
        &mut self,
        line: &[u8],
        shelf: &mut D,
        policy: &mut Policy<F>,
    ) -> Result<DraftReply, Memory>
        requires short { length line.now ≤ 16777216 }
        requires ready { CanRun self.old.engine }
        requires judging { IsJudging F.Fn policy.old self.old.engine.keyring }
        ensures ran { IfOk result (RunsIn (rows_of policy.old) (command_of line.now)
            (ends machine_of self) (over D.world D.faults shelf)) }
        ensures directory { Touches result (state_of self.old.engine) (use_of (command_of line.now))
            D.world D.faults shelf.old shelf.new }
        ensures words { IfOk result (λ drafted. HasWords drafted.reply) }
        ensures anew { OnOk result
            (IsDump line.now → (rows : PolicyRows) → IsMadeAnew rows (state_of self.old.engine)) }
        ensures edges { OnOk result (LineMarks self.old.engine (command_of line.now)) }
        ensures quiet { IfOk result (λ drafted.
            is_short drafted.reply ≡ false → StaysKept (machine_of self.old) (machine_of self.new)) }
        ensures due { IfOk result (λ drafted. IsDue (machine_of self.new) drafted.moved) }
        ensures kept { OnErr result (StaysKept (machine_of self.old) (machine_of self.new)) }
        ensures makes { PartsMake result (command_of line.now) (ends machine_of self) }
        ensures once { RunsOnce self.old.engine self.new.engine }
        ensures asked { LineAsks result (command_of line.now) (state_of self.old.engine) (state_of self.new.engine)
            policy.old policy.new }
        ensures judging { StaysJudging F.Fn policy.old policy.new self.new.engine.keyring }
    {
        match read_line(self.alloc, line) {
            Ok(command) => self.run_class(classify(command), shelf, policy),
            Err(LineFault::Line) => Ok(alone(Reply::Line)),
            Err(LineFault::Memory) => Err(Memory),
        }
    }

    /// Runs a command, by its class. A command that only removes something takes no memory.
    fn run_class<D: Shelf, F: Fn(Ask) -> bool>(
        &mut self,
        class: Class,
        shelf: &mut D,
        policy: &mut Policy<F>,
    ) -> Result<DraftReply, Memory>
        requires read { IsFit class × IsSmall class }
        requires ready { CanRun self.old.engine }
        requires judging { IsJudging F.Fn policy.old self.old.engine.keyring }
        ensures ran { IfOk result (ClassRunsIn (rows_of policy.old) class
            (ends machine_of self) (over D.world D.faults shelf)) }
        ensures directory { Touches result (state_of self.old.engine) (use_by class)
            D.world D.faults shelf.old shelf.new }
        ensures anew { OnOk result (OnDump class ((rows : PolicyRows) → IsMadeAnew rows (state_of self.old.engine))) }
        ensures edges { OnOk result (CommandMarks self.old.engine class) }
        ensures quiet { IfOk result (λ drafted.
            is_short drafted.reply ≡ false → StaysKept (machine_of self.old) (machine_of self.new)) }
        ensures due { IfOk result (λ drafted. IsDue (machine_of self.new) drafted.moved) }
        ensures kept { OnErr result (StaysKept (machine_of self.old) (machine_of self.new)) }
        ensures sure { is_removal class ≡ true → is_ok result ≡ true }
        ensures makes { Makes result class self.old.cursors self.old.engine self.new.engine
            self.old.steps.made self.new.steps.made }
        ensures once { RunsOnce self.old.engine self.new.engine }
        ensures asked { AsksBy result class (state_of self.old.engine) (state_of self.new.engine)
            policy.old policy.new }
        ensures judging { StaysJudging F.Fn policy.old policy.new self.new.engine.keyring }
    {
        match class {
            Class::State(command) => without_move(run_state_command(
                self.alloc,
                &mut self.engine,
                &mut self.steps,
                &command,
                shelf,
                policy,
            )),
            Class::Cursor(name, command) => run_cursor_command(
                self.alloc,
                &mut self.engine,
                &mut self.steps,
                &mut self.cursors,
                &name,
                &command,
            ),
            Class::Watch(name, command) => without_move(watch(
                self.alloc,
                &mut self.engine,
                &mut self.steps,
                &mut self.watches,
                &name,
                &command,
            )),
        }
    }
}
