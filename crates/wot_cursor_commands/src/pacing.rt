//! The `cursor` commands: `over`, `next` and `close`. A piece is listed from the cursor's place, and the cursor moves
//! only once the piece was written. It uses wot_cursor and wot_explain. wot_laws says that the pieces
//! join to the list.
ghost use Rattle.std.specs.Prelude.{◌≡◌, ◌≤◌, None, Some, false, true, length, IfOk, OnErr, is_ok, is_some};
ghost use Rattle.wot_table.specs.Table.{entry_at};
ghost use Rattle.wot_script.specs.Replies.{is_short};
ghost use Rattle.wot_cache.specs.State.{StaysButMarks};
ghost use Rattle.wot_cache.specs.Views.{view_at};
ghost use Rattle.wot_cursor.specs.Cursors.{Cursors as TheCursors};
ghost use Rattle.wot_plain.specs.declared.class.CursorCommand.TheVariants as paces;
ghost use Rattle.wot_plain.specs.Pacing.{ReturnsPiece, OnTold, PacesCursor, TellsPiece, behind, settled};
ghost use Rattle.wot_plain.specs.Made.{CursorMakes, PieceMakes};
ghost use Rattle.wot_plain.specs.Session.{session_of};

use std::alloc::Global;
use wot_cache::{Engine, Parts};
use wot_cursor::{Age, Cursor, Cursors, Stamps, age};
use wot_explain::laws::list_is_one;
use wot_explain::{Bind, list_after};
use wot_plain::{
    CursorCommand, CursorMove, DraftReply, Missing, Refused, alone, bind_lines, reply_to,
    reply_to_missing,
};
use wot_script::{BindLines, Reply};
use wot_types::{Memory, Place, Steps, UserId, ViewName};

/// Runs a command about the cursor of this name. A cursor moves only once the reply is written. `close` takes no
/// memory.
pub fn run_cursor_command(
    alloc: Global,
    engine: &mut Engine,
    steps: &mut Steps,
    cursors: &mut Cursors,
    name: &ViewName,
    command: &CursorCommand,
) -> Result<DraftReply, Memory>
    ensures paces { OnTold result cursors.new
        (PacesCursor (session_of engine.old cursors.old) name.now command.now) }
    ensures stays { StaysButMarks engine.old engine.new }
    ensures makes { CursorMakes result (entry_at cursors.old name.now) command.now engine.old engine.new
        steps.old.made steps.new.made }
    ensures quiet { IfOk result (λ drafted. is_short drafted.reply ≡ false → cursors.new ≡ cursors.old) }
    ensures moves { IfOk result (λ drafted. is_some drafted.moved ≡ true → cursors.new ≡ cursors.old) }
    ensures kept { OnErr result (cursors.new ≡ cursors.old) }
    ensures sure { command.now ≡ paces.Close → is_ok result ≡ true }
{
    match command {
        CursorCommand::Over(view, wanted) => over(alloc, engine, cursors, name, view, *wanted),
        CursorCommand::Next(count) => next(alloc, engine, steps, cursors, name, *count),
        CursorCommand::Close => Ok(close(engine, cursors, name)),
    }
}

/// `cursor C over V N`: begins or restarts a cursor over the bindings that are authenticated to the amount N. Refused
/// if the view isn't open, or if the number of cursors is at its limit. After `Memory` the cursors are unchanged.
pub fn over(
    alloc: Global,
    engine: &Engine,
    cursors: &mut Cursors,
    name: &ViewName,
    view: &ViewName,
    wanted: u32,
) -> Result<DraftReply, Memory>
    ensures begins { OnTold result cursors.new
        (PacesCursor (session_of engine.now cursors.old) name.now (paces.Over view.now wanted)) }
    ensures short { IfOk result (λ drafted. is_short drafted.reply ≡ true) }
    ensures alone { IfOk result (λ drafted. drafted.moved ≡ None) }
    ensures kept { OnErr result (cursors.new ≡ cursors.old) }
{
    let Some(revision) = engine.revision(view) else {
        return Ok(alone(reply_to_missing(Missing::View)));
    };
    let stamps = Stamps {
        keyring: engine.keyring().changes(),
        view: revision,
    };
    let name = name.duplicate(alloc)?;
    let view = view.duplicate(alloc)?;
    match cursors.begin(name, view, wanted, stamps) {
        Ok(()) => Ok(alone(Reply::Done)),
        Err(fault) => Ok(alone(reply_to(Refused::from(fault))?)),
    }
}

/// `cursor C close`: removes a cursor, or replies that there is none of this name. Takes no memory.
pub fn close(engine: &Engine, cursors: &mut Cursors, name: &ViewName) -> DraftReply
    ensures ends { PacesCursor (session_of engine.now cursors.old) name.now paces.Close
        result.reply (settled result.moved cursors.new) }
    ensures short { is_short result.reply ≡ true }
    ensures alone { result.moved ≡ None }
{
    let _changes = engine.keyring().changes();
    if cursors.get(name).is_none() {
        return alone(reply_to_missing(Missing::Cursor));
    }
    let _ = cursors.end(name);
    alone(Reply::Done)
}

/// `cursor C next K`: the cursor's next K bindings, or all that are left. Refused if there is no such cursor, if its
/// view isn't open, or if the keyring or the view changed since it began. The cursor moves only once the reply is
/// written.
pub fn next(
    alloc: Global,
    engine: &mut Engine,
    steps: &mut Steps,
    cursors: &Cursors,
    name: &ViewName,
    count: u32,
) -> Result<DraftReply, Memory>
    ensures goes { OnTold result cursors.now
        (PacesCursor (session_of engine.old cursors.now) name.now (paces.Next count)) }
    ensures stays { StaysButMarks engine.old engine.new }
    ensures makes { PieceMakes result (entry_at cursors.now name.now) engine.old engine.new
        steps.old.made steps.new.made }
{
    let Some(cursor) = cursors.get(name) else {
        return Ok(alone(reply_to_missing(Missing::Cursor)));
    };
    let Some(revision) = engine.revision(cursor.view()) else {
        return Ok(alone(reply_to_missing(Missing::View)));
    };
    let now = Stamps {
        keyring: engine.keyring().changes(),
        view: revision,
    };
    match age(cursor.stamps(), now) {
        Age::Same => give(alloc, engine, steps, cursor, name, count),
        Age::Keyring(was, now) => Ok(alone(Reply::StaleKeyring(was, now))),
        Age::View(was, now) => Ok(alone(Reply::StaleView(was, now))),
    }
}

/// The next piece of a cursor that isn't stale.
fn give(
    alloc: Global,
    engine: &mut Engine,
    steps: &mut Steps,
    cursor: &Cursor,
    name: &ViewName,
    count: u32,
) -> Result<DraftReply, Memory>
    requires open { is_some (view_at engine.old.views cursor.now.view) ≡ true }
    ensures gives { (cursors : TheCursors) → OnTold result cursors
        (ReturnsPiece (session_of engine.old cursors) name.now count cursor.now) }
    ensures stays { StaysButMarks engine.old engine.new }
    ensures makes { PieceMakes result (Some cursor.now) engine.old engine.new steps.old.made steps.new.made }
{
    // No command begins a cursor that wants nothing.
    if cursor.wanted() == 0 {
        return Ok(alone(Reply::Piece(0, BindLines::new(alloc))));
    }
    list_is_one();
    match engine.parts(cursor.view(), steps) {
        Ok(parts) => piece(alloc, &parts, cursor, name, count),
        Err(fault) => Ok(alone(reply_to(Refused::from(fault))?)),
    }
}

/// The piece over the parts of the cursor's view.
fn piece(
    alloc: Global,
    parts: &Parts<'_>,
    cursor: &Cursor,
    name: &ViewName,
    count: u32,
) -> Result<DraftReply, Memory>
    requires wanted { 1 ≤ cursor.now.wanted }
    requires few { length parts.now.roots.now ≤ 64 }
    ensures piece { IfOk result (λ drafted. TellsPiece parts.now name.now count cursor.now drafted) }
{
    let wanted = cursor.wanted();
    let after = cursor.place();
    let binds = list_after(
        alloc,
        parts.keyring,
        &parts.roads,
        parts.roots,
        wanted,
        after,
        count,
    )?;
    let moved = moved_behind(alloc, name, &binds)?;
    let lines = bind_lines(alloc, binds)?;
    let reply = Reply::Piece(lines.items().len() as u64, lines);
    Ok(DraftReply { reply, moved })
}

/// The place of the cursor once these bindings are written.
fn moved_behind(
    alloc: Global,
    name: &ViewName,
    binds: &[Bind],
) -> Result<Option<CursorMove>, Memory>
    ensures moved { IfOk result (λ moved. (cursors : TheCursors) →
        settled moved cursors ≡ behind cursors name.now binds.now) }
{
    let Some(last) = binds.last() else {
        return Ok(None);
    };
    let place = Place {
        fpr: last.fpr,
        uid: UserId::new(alloc, last.uid.octets())?,
    };
    let cursor = name.duplicate(alloc)?;
    Ok(Some(CursorMove { cursor, place }))
}
