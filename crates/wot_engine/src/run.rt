//! A run: the lines of a source are answered by one machine, and their replies are written to a sink.
//!
//! It uses the reader of lines of `wot_io` and `Machine::line` and `Machine::tell`. Replies are buffered until
//! more input would be read. `run_words` hands its clauses on (`specs/RunDoes.antt`, `specs/Ended.antt`).
ghost use Rattle.std.specs.Prelude.{◌≡◌, ◌≢◌, ◌<◌, ◌≤◌, ◌+◌, [], length};
ghost use Rattle.std.specs.Prelude.{IfSome, OnErr, OnOk, IsErrOf, None, vec_items};
ghost use Rattle.wot_types.specs.Limits.{standard_limits};
ghost use Rattle.wot_policy.specs.Kept.{IsFaithful, rows_of};
ghost use Rattle.wot_keyring_spec.specs.Kept.{IsJudgedBy};
ghost use Rattle.wot_io.specs.Counts.{Rose};
ghost use Rattle.wot_io.specs.Input.{HasNoFeed};
ghost use Rattle.wot_io.specs.Sink.{GainsPrefix};
ghost use Rattle.wot_cache.specs.State.{empty, state_of};
ghost use Rattle.wot_command.specs.Lasting.{CanCount, IsJudging};
ghost use Rattle.wot_machine.specs.Machine.{kept};
ghost use Rattle.wot_plain.specs.Both.{ends, itself};
ghost use Rattle.wot_plain.specs.Entry.{MayPutTo};
ghost use Rattle.wot_engine.specs.RunAsks.{MayAsk, ReadAsks, RunAsks, command_by, done};
ghost use Rattle.wot_engine.specs.Ends.{status_at};
ghost use Rattle.wot_engine.specs.RunDoes.{Does, Runs, Takes};
ghost use Rattle.wot_engine.specs.Held.{Moves};
ghost use Rattle.wot_engine.specs.LineReply.{Says, SaysAll, use_by};
ghost use Rattle.wot_engine.specs.declared.run.Stop.TheVariants as stops;
ghost use Rattle.wot_engine.specs.declared.run.Stop.TheVariants.{Read, Write};

use std::alloc::Global;
use std::mem;
use wot_certd::Shelf;
use wot_io::{Failed, Line, Lines, LinesFault, Sink, Source, write_all};
use wot_laws::each_line_has_one_outcome;
use wot_machine::Machine;
use wot_policy::{Ask, Policy};
use wot_script::{Reply, print_reply};
use wot_types::Memory;

/// Why a run ended before its input did.
#[derive(Clone, Copy)]
pub enum Stop {
    /// The source failed.
    Read,
    /// The sink failed.
    Write,
    /// Out of memory.
    Memory,
    /// 2^30 octets were taken, and the input had not ended.
    TooMuch,
}

impl From<Memory> for Stop {
    ghost from_gives = { λ _ e. e ≡ stops.Memory };

    fn from(_: Memory) -> Stop {
        Stop::Memory
    }
}

impl From<Failed> for Stop {
    ghost from_gives = { λ _ e. e ≡ stops.Write };

    fn from(_: Failed) -> Stop {
        Stop::Write
    }
}

/// The buffer is written once it has this many octets. Only the last reply may go beyond.
const MOST_HELD: usize = 65_536;

/// Appends the reply to a line to the buffer. After `Memory` the buffer is unchanged.
fn say<D: Shelf, F: Fn(Ask) -> bool>(
    machine: &mut Machine,
    line: Line,
    text: &[u8],
    out: &mut Vec<u8>,
    shelf: &mut D,
    policy: &mut Policy<F>,
) -> Result<(), Memory>
    requires some { line ≢ Line.End }
    requires countable { CanCount machine.old.engine }
    requires judging { IsJudging F.Fn policy.old machine.old.engine.keyring }
    ensures said { OnOk result (Says (rows_of policy.old) line text.now
        (ends kept machine) (ends D.world shelf) (ends vec_items out)) }
    ensures entries { OnErr result (MayPutTo (state_of machine.old.engine) (use_by line text.now)
        (ends D.world shelf)) }
    ensures kept { OnErr result (out.new.items ≡ out.old.items) }
    ensures counted { machine.new.engine.keyring.changes ≤ machine.old.engine.keyring.changes + 1 }
    ensures turned { machine.new.engine.revisions.count ≤ machine.old.engine.revisions.count + 1 }
    ensures asked { ReadAsks result line text.now (ends kept machine) (ends itself policy) }
    ensures judged { IsJudgedBy (rows_of policy.old) machine.new.engine.keyring }
    ensures faithful { IsFaithful F.Fn policy.new }
    ensures rows { rows_of policy.new ≡ rows_of policy.old }
{
    match line {
        Line::Text => machine.line(text, shelf, policy, out),
        Line::Long => print_reply(&Reply::Long, out),
        Line::End => unreachable!(),
    }
}

/// Appends the reply to a line and the watch lines after it to the buffer. After `Memory` the buffer is unchanged.
fn reply_to<D: Shelf, F: Fn(Ask) -> bool>(
    machine: &mut Machine,
    line: Line,
    text: &[u8],
    shelf: &mut D,
    policy: &mut Policy<F>,
    out: &mut Vec<u8>,
) -> Result<(), Memory>
    requires some { line ≢ Line.End }
    requires countable { CanCount machine.old.engine }
    requires judging { IsJudging F.Fn policy.old machine.old.engine.keyring }
    ensures replies { OnOk result (SaysAll (rows_of policy.old) line text.now
        (ends kept machine) (ends D.world shelf) (ends vec_items out)) }
    ensures entries { OnErr result (MayPutTo (state_of machine.old.engine) (use_by line text.now)
        (ends D.world shelf)) }
    ensures kept { OnErr result (out.new.items ≡ out.old.items) }
    ensures counted { machine.new.engine.keyring.changes ≤ machine.old.engine.keyring.changes + 1 }
    ensures turned { machine.new.engine.revisions.count ≤ machine.old.engine.revisions.count + 1 }
    ensures asked { OnOk result (ReadAsks done line text.now (ends kept machine) (ends itself policy)) }
    ensures may_ask { OnErr result (MayAsk (command_by line text.now) policy.old policy.new) }
    ensures judged { IsJudgedBy (rows_of policy.old) machine.new.engine.keyring }
    ensures faithful { IsFaithful F.Fn policy.new }
    ensures rows { rows_of policy.new ≡ rows_of policy.old }
{
    let start = out.len();
    say(machine, line, text, out, shelf, policy)?;
    if let Err(Memory) = machine.tell(out) {
        out.truncate(start);
        return Err(Memory);
    }
    Ok(())
}

/// Writes the buffer, unless it is short and the next line is available without reading.
fn flush<K: Sink>(lines: &Lines, output: &mut K, out: &mut Vec<u8>) -> Result<(), Failed>
    ensures moves { OnOk result (Moves (K.written output.old) out.old.items (K.written output.new) out.new.items) }
    ensures none { OnOk result (HasNoFeed lines.now.held → out.new.items ≡ []) }
    ensures few { OnOk result (length out.new.items < 65536) }
    ensures cut { OnErr result (IfSome (K.written output.old)
        (λ old. GainsPrefix old (K.written output.new) out.old.items)) }
    ensures later { K.faults output.old ≤ K.faults output.new }
    ensures cause { OnErr result (Rose (K.faults output.old) (K.faults output.new)) }
{
    if lines.has_line() && out.len() < MOST_HELD {
        return Ok(());
    }
    write_all(output, out)?;
    out.clear();
    Ok(())
}

/// Answers the lines of an input. The replies to all complete lines that are available are written together, before
/// more is read. If memory runs out for a line, the replies to the lines before it are written. What the machine holds
/// in the end is left to the process.
pub fn run<S: Source, K: Sink, D: Shelf, F: Fn(Ask) -> bool>(
    alloc: Global,
    input: &mut S,
    output: &mut K,
    shelf: &mut D,
    policy: &mut Policy<F>,
) -> Result<(), Stop>
    requires faithful { IsFaithful F.Fn policy.old }
    ensures does { Does (rows_of policy.old) result
        (ends S.left input) (ends K.written output) (ends D.world shelf) }
    ensures takes { Takes result (ends S.left input) }
    ensures source { IsErrOf result Read → Rose (S.faults input.old) (S.faults input.new) }
    ensures sink { IsErrOf result Write → Rose (K.faults output.old) (K.faults output.new) }
    ensures asked { RunAsks (status_at result)
        (ends S.left input) (ends K.written output) (ends D.world shelf) (ends itself policy) }
    ensures faithful { IsFaithful F.Fn policy.new }
    ensures rows { rows_of policy.new ≡ rows_of policy.old }
{
    each_line_has_one_outcome();
    let mut lines = Lines::new(alloc)?;
    let mut machine = Machine::new(alloc);
    let ended = answer_lines(
        alloc,
        &mut lines,
        &mut machine,
        input,
        output,
        shelf,
        policy,
    );
    // A run ends with its process. To free a large keyring piece by piece takes an eighth of a run, or more.
    mem::forget(machine);
    ended
}

/// Answers the lines of an input, starting with a fresh reader and a fresh machine.
fn answer_lines<S: Source, K: Sink, D: Shelf, F: Fn(Ask) -> bool>(
    alloc: Global,
    lines: &mut Lines,
    machine: &mut Machine,
    input: &mut S,
    output: &mut K,
    shelf: &mut D,
    policy: &mut Policy<F>,
) -> Result<(), Stop>
    requires unread { lines.old ≡ record { held = []; text = []; taken = 0; fault = None } }
    requires engine { machine.old.engine ≡ empty standard_limits }
    requires cursors { machine.old.cursors ≡ [] }
    requires watches { machine.old.watches ≡ [] }
    requires faithful { IsFaithful F.Fn policy.old }
    ensures runs { Runs F.Fn result
        (ends S.left input) (ends K.written output) (ends D.world shelf) (ends itself policy) }
    ensures source { IsErrOf result Read → Rose (S.faults input.old) (S.faults input.new) }
    ensures sink { IsErrOf result Write → Rose (K.faults output.old) (K.faults output.new) }
{
    each_line_has_one_outcome();
    let mut out = Vec::new(alloc);
    'lines: loop {
        flush(lines, output, &mut out)?;
        let line = match lines.next(input) {
            Ok(Line::End) => return Ok(()),
            Ok(line) => line,
            Err(LinesFault::ReadFault) => return Err(Stop::Read),
            Err(LinesFault::TooMuch) => return Err(Stop::TooMuch),
        };
        let Ok(()) = reply_to(machine, line, lines.text(), shelf, policy, &mut out) else {
            write_all(output, &out)?;
            return Err(Stop::Memory);
        };
    }
}
