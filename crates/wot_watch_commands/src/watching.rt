//! The `watch` commands, and the watch lines after each line. A watch's question is asked again only if what its answer
//! depends on may have changed: `wot_cache`'s `Basis` says so. Watches are kept by wot_watch.
ghost use Rattle.std.specs.Prelude.{◌≡◌, ◌≤◌, ◌+◌, [], None, true, IfOk, IfSome, OnErr, is_ok};
ghost use Rattle.std.specs.List.{AllByRecursion};
ghost use Rattle.wot_script.specs.Replies.{is_short};
ghost use Rattle.wot_keyring_spec.specs.Kept.{AreSortedByFpr};
ghost use Rattle.wot_cache.specs.Basis.{HasGrown, IsPresent};
ghost use Rattle.wot_cache.specs.Marks.{IsRefreshed};
ghost use Rattle.wot_cache.specs.State.{StaysButMarks, state_of};
ghost use Rattle.wot_plain.specs.declared.class.WatchCommand.TheVariants as commands;
ghost use Rattle.wot_plain.specs.Classes.{IsWatched};
ghost use Rattle.wot_plain.specs.Made.{WatchMakes, WatchMakesMarks, WatchesMake};
ghost use Rattle.wot_watch_commands.specs.Asked.{AmountsTo, BeginsFor, OpensFor, RestsOn};
ghost use Rattle.wot_watch_commands.specs.Settled.{AllSettled, AreOpen, AreSettled, IsSettled};
ghost use Rattle.wot_watch_commands.specs.Stale.{stale_in};
ghost use Rattle.wot_plain.specs.Watching.{AreLines, IsLine, IsWatchLine};
ghost use Rattle.wot_plain.specs.Watching.{SetsOver, SetsWatch, told_all, told_by};
ghost use Rattle.wot_plain.specs.Session.{Session, watched};

use std::alloc::Global;
use wot_cache::laws::{kept_on_is_order, rests_on};
use wot_cache::{AskFault, Asked, Basis, Engine};
use wot_plain::{Missing, Refused, WatchCommand, reply_to, reply_to_missing};
use wot_script::Reply;
use wot_types::{Memory, Steps, UserId, ViewName};
use wot_watch::{Watch, Watches};

/// Runs a command about the watch of this name. After `Memory` the watches are unchanged. `off` takes no memory.
pub fn watch(
    alloc: Global,
    engine: &mut Engine,
    steps: &mut Steps,
    watches: &mut Watches,
    name: &ViewName,
    command: &WatchCommand,
) -> Result<Reply, Memory>
    requires wanted { IsWatched command.now }
    ensures sets { IfOk result (λ reply.
        SetsOver engine.old watches.old name.now command.now reply watches.new) }
    ensures stays { StaysButMarks engine.old engine.new }
    ensures makes { WatchMakesMarks result command.now engine.old engine.new steps.old.made steps.new.made }
    ensures short { IfOk result (λ reply. is_short reply ≡ true) }
    ensures kept { OnErr result (watches.new ≡ watches.old) }
    ensures sure { command.now ≡ commands.Off → is_ok result ≡ true }
{
    match command {
        WatchCommand::On(view, target, wanted, uid) => {
            let asked = Asked {
                target,
                wanted: *wanted,
                uid: uid.octets(),
            };
            on(alloc, engine, steps, watches, name, view, &asked)
        }
        WatchCommand::Off => Ok(off(watches, name)),
    }
}

/// `watch W on V FPR N UID`: begins or restarts a watch, with its current amount as the reply. Refused if the view
/// isn't open, or if the number of watches is at its limit. After `Memory` the watches are unchanged.
pub fn on(
    alloc: Global,
    engine: &mut Engine,
    steps: &mut Steps,
    watches: &mut Watches,
    name: &ViewName,
    view: &ViewName,
    asked: &Asked<'_>,
) -> Result<Reply, Memory>
    requires wanted { 1 ≤ asked.now.wanted }
    ensures watching { IfOk result (λ reply.
        OpensFor engine.old watches.old name.now view.now asked.now reply watches.new) }
    ensures stays { StaysButMarks engine.old engine.new }
    ensures refreshed { IsRefreshed result view.now engine.old engine.new steps.old.made steps.new.made }
    ensures short { IfOk result (λ reply. is_short reply ≡ true) }
    ensures kept { OnErr result (watches.new ≡ watches.old) }
{
    match engine.ask(view, asked.target, asked.wanted, asked.uid, steps) {
        Ok(answer) => begin(alloc, watches, name, view, asked, answer.sum),
        Err(fault) => reply_to(Refused::from(fault)),
    }
}

/// Begins a watch with this first amount, or restarts it.
fn begin(
    alloc: Global,
    watches: &mut Watches,
    name: &ViewName,
    view: &ViewName,
    asked: &Asked<'_>,
    amount: u32,
) -> Result<Reply, Memory>
    ensures begins { IfOk result (λ reply.
        BeginsFor watches.old name.now view.now asked.now amount reply watches.new) }
    ensures short { IfOk result (λ reply. is_short reply ≡ true) }
    ensures kept { OnErr result (watches.new ≡ watches.old) }
{
    let shown = name.duplicate(alloc)?;
    let key = name.duplicate(alloc)?;
    let of_view = view.duplicate(alloc)?;
    let uid = UserId::new(alloc, asked.uid)?;
    match watches.put(
        key,
        Watch::new(of_view, *asked.target, asked.wanted, uid, amount),
    ) {
        Ok(()) => Ok(Reply::WatchAmount(shown, amount)),
        Err(fault) => reply_to(Refused::from(fault)),
    }
}

/// `watch W off`: removes a watch, or replies that there is none of this name. Takes no memory.
pub fn off(watches: &mut Watches, name: &ViewName) -> Reply
    ensures watching { (s : Session) → SetsWatch (watched s watches.old) name.now commands.Off result watches.new }
    ensures short { is_short result ≡ true }
{
    if watches.get(name).is_none() {
        return reply_to_missing(Missing::Watch);
    }
    let _was_there = watches.take(name);
    Reply::Done
}

/// The watch lines, by name of watch, none of which counts as reported yet. If there are none, all amounts depend on
/// the basis.
pub fn watch_lines(
    alloc: Global,
    engine: &mut Engine,
    steps: &mut Steps,
    watches: &Watches,
    basis: &mut Basis,
) -> Result<Vec<Reply>, Memory>
    requires present { IsPresent engine.old basis.old }
    ensures settled { IfOk result (λ lines. lines.items ≡ [] → AllSettled engine.new basis.new watches.now) }
    ensures lines { IfOk result (λ lines. AreLines (state_of engine.old) watches.now lines.items) }
    ensures each { IfOk result (λ lines. AllByRecursion IsWatchLine lines.items) }
    ensures makes { WatchesMake result watches.now engine.old engine.new steps.old.made steps.new.made }
    // Whichever watch has no answer, the signatures of a stale certificate count once for each view.
    ensures once { steps.new.made ≤ steps.old.made + stale_in engine.old watches.now }
    ensures stays { StaysButMarks engine.old engine.new }
    ensures never_less { steps.old.made ≤ steps.new.made }
{
    kept_on_is_order();
    rests_on();
    ordered(engine);
    let mut lines = Vec::new(alloc);
    let mut rest = watches.iter();
    'rest: while let Some((name, watch)) = rest.next() {
        if let Some(line) = watch_line(alloc, engine, steps, name, watch, basis)? {
            lines.push(line)?;
        }
    }
    Ok(lines)
}

/// A law: the certificates that an engine keeps are sorted, so each is kept once.
fn ordered(engine: &Engine)
    ensures sorted { AreSortedByFpr engine.now.keyring.certs }
{
    let _ = engine.keyring().len();
}

/// The line of a watch; None if its amount is the last one reported.
fn watch_line(
    alloc: Global,
    engine: &mut Engine,
    steps: &mut Steps,
    name: &ViewName,
    watch: &Watch,
    basis: &mut Basis,
) -> Result<Option<Reply>, Memory>
    requires present { IsPresent engine.old basis.old }
    ensures settled { IfOk result (λ line. line ≡ None → IsSettled engine.old basis.new watch.now) }
    ensures grown { HasGrown basis.old basis.new }
    ensures line { IfOk result (IsLine (state_of engine.old) name.now watch.now) }
    ensures makes { WatchMakes result watch.now engine.old engine.new steps.old.made steps.new.made }
    ensures stays { StaysButMarks engine.old engine.new }
    ensures never_less { steps.old.made ≤ steps.new.made }
{
    let target = watch.target();
    let asked = Asked {
        target: &target,
        wanted: watch.wanted(),
        uid: watch.uid(),
    };
    let amount = amount_of(engine, steps, watch.view(), &asked, basis)?;
    match amount {
        None => Ok(Some(Reply::WatchGone(name.duplicate(alloc)?))),
        Some(amount) => {
            if amount == watch.told() {
                return Ok(None);
            }
            Ok(Some(Reply::WatchAmount(name.duplicate(alloc)?, amount)))
        }
    }
}

/// The amount of the answer to a question from a view, on which the basis then depends; None if the view isn't open.
fn amount_of(
    engine: &mut Engine,
    steps: &mut Steps,
    view: &ViewName,
    asked: &Asked<'_>,
    basis: &mut Basis,
) -> Result<Option<u32>, Memory>
    requires present { IsPresent engine.old basis.old }
    ensures rests { IfOk result (λ sum. IfSome sum (λ n.
        1 ≤ asked.now.wanted → RestsOn engine.old basis.new view.now asked.now n)) }
    ensures nothing { IfOk result (λ sum. IfSome sum (λ n. asked.now.wanted ≡ 0 → n ≡ 0)) }
    ensures grown { HasGrown basis.old basis.new }
    ensures amount { IfOk result (AmountsTo engine.old view.now asked.now) }
    ensures asked { 1 ≤ asked.now.wanted →
        IsRefreshed result view.now engine.old engine.new steps.old.made steps.new.made }
    ensures unasked { asked.now.wanted ≡ 0 → (engine.new ≡ engine.old) × (steps.new.made ≡ steps.old.made) }
    ensures stays { StaysButMarks engine.old engine.new }
    ensures never_less { steps.old.made ≤ steps.new.made }
{
    // No command begins a watch that wants nothing.
    let wanted = asked.wanted;
    if wanted == 0 {
        return match engine.time(view) {
            Some(_) => Ok(Some(0)),
            None => Ok(None),
        };
    }
    match engine.sum(view, asked, steps, basis) {
        Ok(sum) => Ok(Some(sum)),
        Err(AskFault::View) => Ok(None),
        Err(AskFault::Memory) => Err(Memory),
    }
}

/// Whether it is known, without asking anything, that no watch has a line: nothing that the basis depends on was
/// altered, and all views are open.
pub fn are_settled(engine: &Engine, watches: &Watches, basis: &mut Option<Basis>) -> bool
    requires settled { AreSettled engine.now watches.now basis.old }
    ensures quiet { result ≡ true → AreLines (state_of engine.now) watches.now [] }
    ensures settled { AreSettled engine.now watches.now basis.new }
{
    kept_on_is_order();
    match basis {
        Some(basis) => engine.still_current(basis) && all_open(engine, watches),
        None => false,
    }
}

/// Whether the views of all watches are open.
fn all_open(engine: &Engine, watches: &Watches) -> bool
    ensures open { result ≡ true → AreOpen engine.now watches.now }
{
    let mut rest = watches.iter();
    'rest: while let Some((_, watch)) = rest.next() {
        if engine.time(watch.view()).is_none() {
            return false;
        }
    }
    true
}

/// Marks these watch lines as reported. Takes no memory.
pub fn tell_all(watches: &mut Watches, lines: &[Reply])
    ensures reported { watches.new ≡ told_all watches.old lines.now }
{
    let mut rest = lines;
    'rest: while let Some((line, others)) = rest.split_first() {
        tell_one(watches, line);
        rest = others;
    }
}

/// Marks this watch line as reported.
fn tell_one(watches: &mut Watches, line: &Reply)
    ensures reported { watches.new ≡ told_by watches.old line.now }
{
    match line {
        Reply::WatchAmount(name, amount) => {
            let _ = watches.tell(name, *amount);
        }
        Reply::WatchGone(name) => {
            let _ = watches.take(name);
        }
        _ => {}
    }
}
