//! The machine between two lines. `line` does one: it is read as a command, the command is run on the engine and the
//! certificate directory, and its reply is printed. `tell` then prints the watch lines.
//! `specs/Outcome.antt` and `specs/LineStep.antt` of wot_plain define the outcome of each command. A further command of
//! a class gets its arm where the class is run, in wot_command, wot_cursor_commands or wot_watch_commands. A further
//! class needs an arm of `run_class` in `dispatch`, and `goes_on` in `counts` says whether watches are still up to date
//! after it.
ghost use Rattle.std.specs.Prelude.{◌≡◌, ◌≤◌, ◌+◌, [], ◌++◌};
ghost use Rattle.std.specs.Prelude.{vec_items, vec_len, vec_capacity};
ghost use Rattle.std.specs.Prelude.{Some, None, false, true, IfOk, IfSome, IsOk, OnOk, OnErr};
ghost use Rattle.std.specs.List.{AllByRecursion};
ghost use Rattle.wot_types.specs.Limits.{standard_limits};
ghost use Rattle.wot_policy.specs.declared.rows.PolicyRows.{PolicyRows};
ghost use Rattle.wot_policy.specs.Kept.{rows_of};
ghost use Rattle.wot_keyring_spec.specs.Import.{IsOneChange};
ghost use Rattle.wot_script.specs.Replies.{HasWords, is_short, reply_text};
ghost use Rattle.wot_cache.specs.State.{empty, state_of, StaysButMarks};
ghost use Rattle.wot_command.specs.Asked.{LineAsks};
ghost use Rattle.wot_command.specs.EdgeLines.{LineMarks};
ghost use Rattle.wot_command.specs.Lasting.{CanCount, IsJudging, StaysJudging, Touches};
ghost use Rattle.wot_plain.specs.Lines.{command_in_line, is_silent};
ghost use Rattle.wot_plain.specs.Entry.{use_of};
ghost use Rattle.wot_plain.specs.Both.{ends, itself};
ghost use Rattle.wot_command.specs.CommandRun.{over};
ghost use Rattle.wot_machine.specs.Stepped.{LineRun, PartsMake, Replies, TellsBehind};
ghost use Rattle.wot_plain.specs.Transcript.{octets_of};
ghost use Rattle.wot_machine.specs.Machine.{IsDue, kept, StaysKept};
ghost use Rattle.wot_plain.specs.Pacing.{settled};
ghost use Rattle.wot_plain.specs.Fresh.{IsDump, IsMadeAnew};
ghost use Rattle.wot_plain.specs.Made.{LineMakes, TellingMakes, WatchesMake};
ghost use Rattle.wot_plain.specs.Watching.{AreLines, IsWatchLine, told_all};
ghost use Rattle.wot_watch_commands.specs.Stale.{stale_in};

use crate::counts::{Counts, kept_on};
use crate::dispatch::Inner;
use std::alloc::Global;
use std::marker::Model;
use wot_cache::laws::{change_goes_on, rests_on, views_go_on};
use wot_cache::{Basis, Engine};
use wot_certd::Shelf;
use wot_cursor::Cursors;
use wot_plain::{CursorMove, DraftReply, alone, move_cursor};
use wot_policy::{Ask, Policy};
use wot_script::{Reply, print_reply};
use wot_types::{Limits, Memory, Steps};
use wot_watch::Watches;
use wot_watch_commands::{are_settled, tell_all, watch_lines};

/// The most octets in a line, without its line feed.
const LONGEST: usize = 16_777_216;

/// The most octets that a reply of one line needs.
const ROOM: usize = 128;

/// The machine between two lines: one engine with the standard limits, which all clients share, and their cursors and
/// watches.
#[derive(Drop)]
pub struct Machine {
    inner: Inner,
    // What the last reported amounts depend on, if that is known.
    basis: Option<Basis>,
}

impl Model for Machine {
    ghost use Rattle.std.specs.Prelude.{◌≡◌};
    ghost use Rattle.wot_types.specs.Limits.{standard_limits};
    ghost use Rattle.wot_machine.specs.Machine.{Machine as TheMachine, machine_of};
    ghost use Rattle.wot_watch_commands.specs.Settled.{AreSettled};

    ghost Value = { TheMachine };

    ghost view = { λ a. machine_of a.inner };

    ghost invariant = { λ a.
        (a.inner.engine.keyring.limits ≡ standard_limits) × AreSettled a.inner.engine a.inner.watches a.basis };
}

impl Machine {
    /// An empty machine.
    pub fn new(alloc: Global) -> Machine
        ensures start { result.engine ≡ empty standard_limits }
        ensures cursors { result.cursors ≡ [] }
        ensures watches { result.watches ≡ [] }
        ensures made { result.made ≡ 0 }
    {
        let inner = Inner {
            alloc,
            engine: Engine::new(alloc, Limits::standard()),
            cursors: Cursors::new(alloc),
            watches: Watches::new(alloc),
            steps: Steps::new(),
        };
        Machine { inner, basis: None }
    }

    /// The number of edges made for all questions so far. The count stays at `u64::MAX` when it gets there.
    pub fn made(&self) -> u64
        ensures made { result ≡ self.now.made }
    {
        self.inner.steps.made
    }

    /// Runs one line, without its line feed, and appends its reply. After `Memory`, `out` is unchanged, and so is the
    /// machine except for marks and the count of made edges; an entry that a `store` line writes may be there already.
    /// Room for 128 octets is reserved in `out` before anything changes. A `load` line makes one call to the
    /// certificate directory, a `store` line at most two, and any other line none.
    ///
    /// ```text
    /// view me time 1764547200               ok
    /// view me root FPR 120                  ok
    /// ask me FPR 120 Bob <bob@example.org>  amount 80 paths 1, and lines with the path
    /// view you close                        refused view (it isn't open; nothing changed)
    /// ```
    #[tactic(auto, using(crate::proofs::Unchanged::unchanged))]
    pub fn line<D: Shelf, F: Fn(Ask) -> bool>(
        &mut self,
        line: &[u8],
        shelf: &mut D,
        policy: &mut Policy<F>,
        out: &mut Vec<u8>,
    ) -> Result<(), Memory>
        requires countable { CanCount self.old.engine }
        requires judging { IsJudging F.Fn policy.old self.old.engine.keyring }
        ensures step { OnOk result (LineRun (rows_of policy.old) line.now
            (ends kept self) (over D.world D.faults shelf) (ends vec_items out)) }
        ensures directory { Touches result (state_of self.old.engine) (use_of (command_in_line line.now))
            D.world D.faults shelf.old shelf.new }
        // The lines of a reply to `dump` restore the state in a fresh machine, whatever its policy rows are.
        ensures anew { OnOk result
            (IsDump line.now → (rows : PolicyRows) → IsMadeAnew rows (state_of self.old.engine)) }
        // A line of a reply to `explain` says `edge` exactly for each usable edge, by the definition of edges alone.
        ensures edges { OnOk result (LineMarks self.old.engine (command_in_line line.now)) }
        ensures kept { OnErr result (StaysKept self.old self.new × (out.new.items ≡ out.old.items)) }
        ensures room { OnOk result (is_silent line.now ≡ false → vec_len out.old + 128 ≤ vec_capacity out.new) }
        // A line that doesn't change the state (it is silent or refused, or it asks or lists) doesn't change stamps and
        // counts.
        ensures unchanged { state_of self.new.engine ≡ state_of self.old.engine →
            StaysButMarks self.old.engine self.new.engine }
        // A question makes edges for the certificates that are stale in its view. Any other line makes none.
        ensures makes { LineMakes result (command_in_line line.now) self.old.cursors self.old.engine self.new.engine
            self.old.made self.new.made }
        ensures counted { IsOneChange self.old.engine.keyring self.new.engine.keyring }
        ensures turned { self.new.engine.revisions.count ≤ self.old.engine.revisions.count + 1 }
        // The policy is asked once for each well-formed signature that an import or a load adds, and in no other line.
        ensures asked { LineAsks result (command_in_line line.now) (state_of self.old.engine) (state_of self.new.engine)
            policy.old policy.new }
        ensures judging { StaysJudging F.Fn policy.old policy.new self.new.engine.keyring }
    {
        out.reserve(ROOM)?;
        match self.reply(line, shelf, policy)? {
            Some(drafted) => self.put(drafted, out),
            None => Ok(()),
        }
    }

    /// The reply to a line, without its line feed; None if the line is silent. After `Memory` the machine is unchanged
    /// except for marks and the count of made edges. A cursor moves only once its piece is written
    /// ([`Machine::move_cursor`]).
    #[tactic(auto, using(crate::proofs::Unchanged::unchanged))]
    pub fn reply<D: Shelf, F: Fn(Ask) -> bool>(
        &mut self,
        line: &[u8],
        shelf: &mut D,
        policy: &mut Policy<F>,
    ) -> Result<Option<DraftReply>, Memory>
        requires countable { CanCount self.old.engine }
        requires judging { IsJudging F.Fn policy.old self.old.engine.keyring }
        ensures replied { IfOk result (Replies (rows_of policy.old) line.now
            (ends itself self) (over D.world D.faults shelf)) }
        ensures directory { Touches result (state_of self.old.engine) (use_of (command_in_line line.now))
            D.world D.faults shelf.old shelf.new }
        ensures anew { OnOk result
            (IsDump line.now → (rows : PolicyRows) → IsMadeAnew rows (state_of self.old.engine)) }
        ensures edges { OnOk result (LineMarks self.old.engine (command_in_line line.now)) }
        ensures quiet { IfOk result (λ drafted.
            IfSome drafted (λ drafted. is_short drafted.reply ≡ false → StaysKept self.old self.new)) }
        ensures draft { IfOk result (λ drafted.
            IfSome drafted (λ drafted. HasWords drafted.reply × IsDue self.new drafted.moved)) }
        ensures kept { OnErr result (StaysKept self.old self.new) }
        ensures unchanged { state_of self.new.engine ≡ state_of self.old.engine →
            StaysButMarks self.old.engine self.new.engine }
        ensures makes { PartsMake result (command_in_line line.now) (ends itself self) }
        ensures counted { IsOneChange self.old.engine.keyring self.new.engine.keyring }
        ensures turned { self.new.engine.revisions.count ≤ self.old.engine.revisions.count + 1 }
        ensures asked { LineAsks result (command_in_line line.now) (state_of self.old.engine) (state_of self.new.engine)
            policy.old policy.new }
        ensures judging { StaysJudging F.Fn policy.old policy.new self.new.engine.keyring }
    {
        if line.len() > LONGEST {
            return Ok(Some(alone(Reply::Long)));
        }
        if test_silent(line) {
            return Ok(None);
        }
        change_goes_on();
        views_go_on();
        rests_on();
        let basis = self.basis.take();
        let before = Counts::of(&self.inner.engine);
        let drafted = self.inner.answer(line, shelf, policy)?;
        self.basis = kept_on(basis, &self.inner.engine, before, &drafted.reply);
        Ok(Some(drafted))
    }

    /// Appends a reply, and moves the cursor if the reply is its piece. After `Memory` nothing changed.
    fn put(&mut self, drafted: DraftReply, out: &mut Vec<u8>) -> Result<(), Memory>
        requires words { HasWords drafted.reply }
        requires due { IsDue self.old drafted.moved }
        ensures appended { OnOk result (out.new.items ≡ out.old.items ++ reply_text drafted.reply) }
        ensures settled { OnOk result (self.new.cursors ≡ settled drafted.moved self.old.cursors) }
        ensures kept { OnErr result ((self.new.cursors ≡ self.old.cursors) × (out.new.items ≡ out.old.items)) }
        ensures sure { is_short drafted.reply ≡ true → vec_len out.old + 128 ≤ vec_capacity out.old → IsOk result }
        ensures room { vec_capacity out.old ≤ vec_capacity out.new }
        ensures engine { self.new.engine ≡ self.old.engine }
        ensures watches { self.new.watches ≡ self.old.watches }
        ensures made { self.new.made ≡ self.old.made }
    {
        let DraftReply { reply, moved } = drafted;
        print_reply(&reply, out)?;
        self.move_cursor(moved);
        Ok(())
    }

    /// Moves the cursor whose piece was written. The move is the one that came with the piece, and no line was run
    /// since.
    pub fn move_cursor(&mut self, moved: Option<CursorMove>)
        requires due { IsDue self.old moved }
        ensures settled { self.new.cursors ≡ settled moved self.old.cursors }
        ensures engine { self.new.engine ≡ self.old.engine }
        ensures watches { self.new.watches ≡ self.old.watches }
        ensures made { self.new.made ≡ self.old.made }
    {
        move_cursor(moved, &mut self.inner.cursors);
    }

    /// Appends the watch lines, by name of watch: one for each watch whose amount isn't the last one reported, and one
    /// for each whose view isn't open. They count as reported then, and the latter watches are removed. After `Memory`,
    /// `out` is unchanged, and so is the machine except for marks and the count of made edges.
    pub fn tell(&mut self, out: &mut Vec<u8>) -> Result<(), Memory>
        ensures tells { OnOk result (TellsBehind (kept self.old) out.old.items (kept self.new) out.new.items) }
        ensures kept { OnErr result (StaysKept self.old self.new × (out.new.items ≡ out.old.items)) }
        // Nothing is made if the amounts are known. Otherwise each watch makes what a question from its view makes.
        ensures makes { TellingMakes result self.old.watches self.old.engine self.new.engine
            self.old.made self.new.made }
        // Also after `Memory`, the signatures of a stale certificate count once for each view that a watch asks.
        ensures once { self.new.made ≤ self.old.made + stale_in self.old.engine self.old.watches }
        ensures stays { StaysButMarks self.old.engine self.new.engine }
        ensures never_less { self.old.made ≤ self.new.made }
    {
        if self.is_settled() {
            return Ok(());
        }
        let lines = self.watch_lines()?;
        let text = text_of(self.inner.alloc, &lines)?;
        out.extend_from_slice(&text)?;
        self.note_reported(&lines);
        Ok(())
    }

    /// Whether it is known, without asking anything, that no watch has a line.
    fn is_settled(&mut self) -> bool
        ensures settled { result ≡ true → AreLines (state_of self.old.engine) self.old.watches [] }
        ensures same { self.new ≡ self.old }
    {
        are_settled(&self.inner.engine, &self.inner.watches, &mut self.basis)
    }

    /// The watch lines. None of them counts as reported yet.
    pub fn watch_lines(&mut self) -> Result<Vec<Reply>, Memory>
        ensures lines { IfOk result (λ lines. AreLines (state_of self.old.engine) self.old.watches lines.items) }
        ensures each { IfOk result (λ lines. AllByRecursion IsWatchLine lines.items) }
        ensures makes { WatchesMake result self.old.watches self.old.engine self.new.engine
            self.old.made self.new.made }
        ensures once { self.new.made ≤ self.old.made + stale_in self.old.engine self.old.watches }
        ensures stays { StaysButMarks self.old.engine self.new.engine }
        ensures cursors { self.new.cursors ≡ self.old.cursors }
        ensures watches { self.new.watches ≡ self.old.watches }
        ensures never_less { self.old.made ≤ self.new.made }
    {
        self.basis = None;
        let mut basis = Basis::new(self.inner.alloc, &self.inner.engine);
        let steps = &mut self.inner.steps;
        let lines = watch_lines(
            self.inner.alloc,
            &mut self.inner.engine,
            steps,
            &self.inner.watches,
            &mut basis,
        )?;
        if lines.is_empty() {
            self.basis = Some(basis);
        }
        Ok(lines)
    }

    /// Marks these watch lines as reported. They are all that there are to report.
    pub fn note_reported(&mut self, lines: &[Reply])
        requires due { AreLines (state_of self.old.engine) self.old.watches lines.now }
        ensures reported { self.new.watches ≡ told_all self.old.watches lines.now }
        ensures engine { self.new.engine ≡ self.old.engine }
        ensures cursors { self.new.cursors ≡ self.old.cursors }
        ensures made { self.new.made ≡ self.old.made }
    {
        if lines.is_empty() {
            return;
        }
        self.basis = None;
        tell_all(&mut self.inner.watches, lines);
    }
}

/// The octets of watch lines.
fn text_of(alloc: Global, lines: &[Reply]) -> Result<Vec<u8>, Memory>
    requires each { AllByRecursion IsWatchLine lines.now }
    ensures text { IfOk result (λ text. text.items ≡ octets_of lines.now) }
{
    let mut text = Vec::new(alloc);
    let mut rest = lines;
    'rest: while let Some((line, others)) = rest.split_first() {
        print_reply(line, &mut text)?;
        rest = others;
    }
    Ok(text)
}

/// Whether a line is empty or a comment.
fn test_silent(line: &[u8]) -> bool
    ensures silent { result ≡ is_silent line.now }
{
    match line {
        [] => true,
        [octet, ..] => *octet == b'#',
    }
}
