//! A generated run: a script that wot_gen makes, answered by a machine over an empty directory in memory, and summed up
//! in three lines. `words` calls it for `gen X N`.
ghost use Rattle.std.specs.Prelude.{◌≡◌, ◌⊎◌, ◌≤◌, ◌<◌, ◌+◌, ◌-◌, ◌++◌, ◌^◌, List, [], length};
ghost use Rattle.std.specs.Prelude.{IfErr, IfOk, OnOk, IsErrOf};
ghost use Rattle.std.specs.List.{AllByRecursion};
ghost use Rattle.wot_types.specs.Limits.{standard_limits};
ghost use Rattle.wot_io.specs.Counts.{Rose};
ghost use Rattle.wot_io.specs.Input.{lines_of};
ghost use Rattle.wot_policy.specs.Kept.{IsFaithful, rows_of};
ghost use Rattle.wot_keyring_spec.specs.Kept.{IsJudgedBy};
ghost use Rattle.wot_cache.specs.State.{StaysButMarks, empty};
ghost use Rattle.wot_plain.specs.Both.{ends, itself};
ghost use Rattle.wot_machine.specs.Machine.{kept};
ghost use Rattle.wot_plain.specs.Watching.{IsWatchLine};
ghost use Rattle.wot_engine.specs.Generated.{BeginsSummary, IsSummary, WritesSummary, no_entries};
ghost use Rattle.wot_engine.specs.Played.{AddsLine, AddsOne, AddsTold, IsPlayed, seen_in, world_in};
ghost use Rattle.wot_gen.specs.Summary.{Tallies};
ghost use Rattle.wot_script.specs.declared.reply.Reply.{Reply as TheReply};

use crate::run::Stop;
use std::alloc::Global;
use wot_certd::MemoryShelf;
use wot_gen::{Summary, Tally, put_summary, script};
use wot_io::{Sink, first_line, write_all};
use wot_laws::each_line_has_one_outcome;
use wot_machine::{DraftReply, Machine};
use wot_policy::{Ask, Policy};
use wot_script::Reply;
use wot_types::Memory;

/// Makes the script of a start and a number of keys, answers its lines with an empty certificate directory in memory,
/// and writes a summary of three lines.
pub fn generate<K: Sink, F: Fn(Ask) -> bool>(
    alloc: Global,
    start: u64,
    count: u32,
    output: &mut K,
    policy: &mut Policy<F>,
) -> Result<(), Stop>
    requires some { 1 ≤ count }
    requires few { count ≤ 2000 }
    requires faithful { IsFaithful F.Fn policy.old }
    ensures whole { OnOk result (WritesSummary (rows_of policy.old) (ends K.written output) start count) }
    ensures prefix { BeginsSummary (rows_of policy.old) (ends K.written output) start count }
    ensures sink { IsErrOf result Stop.Write → Rose (K.faults output.old) (K.faults output.new) }
    ensures ends { IfErr result (λ stop. (stop ≡ Stop.Write) ⊎ (stop ≡ Stop.Memory)) }
    ensures faithful { IsFaithful F.Fn policy.new }
    ensures rows { rows_of policy.new ≡ rows_of policy.old }
{
    each_line_has_one_outcome();
    let text = summary_of(alloc, start, count, policy)?;
    write_all(output, &text)?;
    Ok(())
}

/// The three lines about a generated run.
fn summary_of<F: Fn(Ask) -> bool>(
    alloc: Global,
    start: u64,
    count: u32,
    policy: &mut Policy<F>,
) -> Result<Vec<u8>, Memory>
    requires some { 1 ≤ count }
    requires few { count ≤ 2000 }
    requires faithful { IsFaithful F.Fn policy.old }
    ensures summary { IfOk result (λ text. IsSummary (rows_of policy.old) start count text.items) }
    ensures faithful { IsFaithful F.Fn policy.new }
    ensures rows { rows_of policy.new ≡ rows_of policy.old }
{
    let mut text = Vec::new(alloc);
    let lines = script(alloc, start, count, &mut text)?;
    let mut tally = Tally::new(alloc);
    play(alloc, &text, policy, &mut tally)?;
    let amounts = tally.amounts;
    let digest = tally.digest();
    let summary = Summary {
        start,
        count,
        lines,
        amounts,
        digest,
    };
    let mut out = Vec::new(alloc);
    put_summary(alloc, &summary, &mut out)?;
    Ok(out)
}

/// Answers the lines of a text with a fresh machine and an empty directory, and returns the tally of the replies.
fn play<F: Fn(Ask) -> bool>(
    alloc: Global,
    text: &[u8],
    policy: &mut Policy<F>,
    tally: &mut Tally,
) -> Result<(), Memory>
    requires small { length text.now < 2 ^ 30 }
    requires none { Tallies tally.old [] }
    requires amounts { tally.old.amounts ≡ 0 }
    requires faithful { IsFaithful F.Fn policy.old }
    ensures played { OnOk result (IsPlayed (rows_of policy.old) (lines_of text.now) tally.new) }
    ensures faithful { IsFaithful F.Fn policy.new }
    ensures rows { rows_of policy.new ≡ rows_of policy.old }
{
    let mut machine = Machine::new(alloc);
    let mut shelf = MemoryShelf::new(alloc, Vec::new(alloc), Vec::new(alloc));
    add_lines(&mut machine, text, &mut shelf, policy, tally)
}

/// Answers the lines of a text. The machine has to be fresh, the directory empty and the tally zero.
fn add_lines<F: Fn(Ask) -> bool>(
    machine: &mut Machine,
    text: &[u8],
    shelf: &mut MemoryShelf,
    policy: &mut Policy<F>,
    tally: &mut Tally,
) -> Result<(), Memory>
    requires small { length text.now < 2 ^ 30 }
    requires engine { machine.old.engine ≡ empty standard_limits }
    requires cursors { machine.old.cursors ≡ [] }
    requires watches { machine.old.watches ≡ [] }
    requires world { shelf.old.world ≡ no_entries }
    requires none { Tallies tally.old [] }
    requires amounts { tally.old.amounts ≡ 0 }
    requires faithful { IsFaithful F.Fn policy.old }
    ensures played { OnOk result (IsPlayed (rows_of policy.old) (lines_of text.now) tally.new) }
    ensures faithful { IsFaithful F.Fn policy.new }
    ensures rows { rows_of policy.new ≡ rows_of policy.old }
{
    let mut rest = text;
    'lines: while !rest.is_empty() {
        let (line, others) = first_line(rest);
        add_line(machine, line, shelf, policy, tally)?;
        rest = others;
    }
    Ok(())
}

/// Answers a line, and adds its reply and the watch lines after it to the tally.
fn add_line<F: Fn(Ask) -> bool>(
    machine: &mut Machine,
    line: &[u8],
    shelf: &mut MemoryShelf,
    policy: &mut Policy<F>,
    tally: &mut Tally,
) -> Result<(), Memory>
    requires room { tally.old.amounts < 2 ^ 63 - 2 ^ 32 }
    requires countable { machine.old.engine.keyring.changes < 2 ^ 64 - 1 }
    requires turnable { machine.old.engine.revisions.count < 2 ^ 64 - 1 }
    requires judged { IsJudgedBy (rows_of policy.old) machine.old.engine.keyring }
    requires faithful { IsFaithful F.Fn policy.old }
    ensures added { OnOk result (AddsLine (rows_of policy.old) line.now
        (ends kept machine) (ends world_in shelf) (ends itself tally)) }
    ensures amounts { tally.new.amounts < tally.old.amounts + 2 ^ 32 }
    ensures counted { machine.new.engine.keyring.changes ≤ machine.old.engine.keyring.changes + 1 }
    ensures turned { machine.new.engine.revisions.count ≤ machine.old.engine.revisions.count + 1 }
    ensures judged { IsJudgedBy (rows_of policy.old) machine.new.engine.keyring }
    ensures faithful { IsFaithful F.Fn policy.new }
    ensures rows { rows_of policy.new ≡ rows_of policy.old }
{
    add_reply(machine, line, shelf, policy, tally)?;
    add_told(machine, tally)
}

/// Answers a line, and adds its reply to the tally.
fn add_reply<F: Fn(Ask) -> bool>(
    machine: &mut Machine,
    line: &[u8],
    shelf: &mut MemoryShelf,
    policy: &mut Policy<F>,
    tally: &mut Tally,
) -> Result<(), Memory>
    requires room { tally.old.amounts < 2 ^ 63 }
    requires countable { machine.old.engine.keyring.changes < 2 ^ 64 - 1 }
    requires turnable { machine.old.engine.revisions.count < 2 ^ 64 - 1 }
    requires judged { IsJudgedBy (rows_of policy.old) machine.old.engine.keyring }
    requires faithful { IsFaithful F.Fn policy.old }
    ensures added { OnOk result (AddsOne (rows_of policy.old) line.now
        (ends kept machine) (ends seen_in shelf) (ends itself tally)) }
    ensures amounts { tally.new.amounts < tally.old.amounts + 2 ^ 32 }
    ensures counted { machine.new.engine.keyring.changes ≤ machine.old.engine.keyring.changes + 1 }
    ensures turned { machine.new.engine.revisions.count ≤ machine.old.engine.revisions.count + 1 }
    ensures judged { IsJudgedBy (rows_of policy.old) machine.new.engine.keyring }
    ensures faithful { IsFaithful F.Fn policy.new }
    ensures rows { rows_of policy.new ≡ rows_of policy.old }
{
    match machine.reply(line, shelf, policy)? {
        Some(DraftReply { reply, moved }) => {
            tally.add(&reply)?;
            machine.move_cursor(moved);
            Ok(())
        }
        None => Ok(()),
    }
}

/// Reports the watch lines, and adds them to the tally.
fn add_told(machine: &mut Machine, tally: &mut Tally) -> Result<(), Memory>
    requires room { tally.old.amounts < 2 ^ 63 }
    ensures added { OnOk result (AddsTold (kept machine.old) tally.old (kept machine.new) tally.new) }
    ensures amounts { tally.new.amounts ≤ tally.old.amounts }
    ensures stays { StaysButMarks machine.old.engine machine.new.engine }
{
    let lines = machine.watch_lines()?;
    add_all(&lines, tally)?;
    machine.note_reported(&lines);
    Ok(())
}

/// Adds watch lines to the tally. They aren't amounts of answers.
fn add_all(lines: &[Reply], tally: &mut Tally) -> Result<(), Memory>
    requires each { AllByRecursion IsWatchLine lines.now }
    requires room { tally.old.amounts < 2 ^ 63 }
    ensures added { OnOk result ((replies : List TheReply) → Tallies tally.old replies →
        Tallies tally.new (replies ++ lines.now)) }
    ensures amounts { tally.new.amounts ≤ tally.old.amounts }
{
    let mut rest = lines;
    'rest: while let Some((line, others)) = rest.split_first() {
        tally.add(line)?;
        rest = others;
    }
    Ok(())
}
