//! `print_command`: a command to its line.
//!
//! It uses `wot_fields`, `wot_reply_lines` and `one_word`, and `specs/Spelling.antt`. Generated scripts are
//! printed through it, and its contract says that `read_line` reads each line back.
ghost use Rattle.std.specs.Prelude.{◌≡◌, ◌++◌, true, OnOk, OnErr};
ghost use Rattle.wot_fields.specs.Appends.{Appends};
ghost use Rattle.wot_script.specs.Grammar.{command_of};
ghost use Rattle.wot_script.specs.OneWord.{has_word};
ghost use Rattle.wot_script.specs.Spelling.{HasSpelling, IsLineFor, spelling};

use crate::one_word::command_word;
use crate::spelled::spelling_is_read;
use crate::{ClaimLines, Command, LabelLines};
use wot_fields::Piece::{Decimal, Key, Text, Uid};
use wot_fields::{
    put_bad, put_close, put_good, put_import, put_pieces, put_root, put_text, put_time, put_unjudge,
};
use wot_reply_lines::{entry_piece, put_claimed, put_numbered, put_question};
use wot_types::{Fpr, Memory, UserId, ViewName};

#[tactic(auto, unfolding(crate::specs::Spelling::spelling))]
fn put_explain<'a>(
    view: &'a ViewName,
    fpr: &'a Fpr,
    uid: &'a UserId,
    out: &mut Vec<u8>,
) -> Result<(), Memory>
    ensures { Appends (spelling (Command.Explain view.now fpr.now uid.now)) out.old out.new result }
{
    let view = Text(view.octets());
    let fpr = Key(fpr);
    let uid = Uid(uid.octets());
    put_pieces(
        &[Text(b"explain "), view, Text(b" "), fpr, Text(b" "), uid],
        out,
    )
}

#[tactic(auto, unfolding(crate::specs::Spelling::spelling))]
fn put_check<'a>(
    view: &'a ViewName,
    fpr: &'a Fpr,
    claims: &ClaimLines,
    labels: &LabelLines,
    uid: &'a UserId,
    out: &mut Vec<u8>,
) -> Result<(), Memory>
    ensures { Appends (spelling (Command.Check view.now fpr.now claims.now labels.now uid.now)) out.old out.new result }
{
    let view = Text(view.octets());
    let fpr = Key(fpr);
    let uid = Uid(uid.octets());
    let head = [Text(b"check "), view, Text(b" "), fpr, Text(b" ")];
    put_claimed(&head, claims, labels, &[Text(b" "), uid], out)
}

#[tactic(auto, unfolding(crate::specs::Spelling::spelling))]
fn put_cursor_over<'a>(
    cursor: &'a ViewName,
    view: &'a ViewName,
    wanted: u32,
    out: &mut Vec<u8>,
) -> Result<(), Memory>
    ensures { Appends (spelling (Command.CursorOver cursor.now view.now wanted)) out.old out.new result }
{
    let cursor = Text(cursor.octets());
    let view = Text(view.octets());
    let wanted = Decimal(u64::from(wanted));
    put_pieces(
        &[
            Text(b"cursor "),
            cursor,
            Text(b" over "),
            view,
            Text(b" "),
            wanted,
        ],
        out,
    )
}

#[tactic(auto, unfolding(crate::specs::Spelling::spelling))]
fn put_watch_on<'a>(
    watch: &'a ViewName,
    view: &'a ViewName,
    fpr: &'a Fpr,
    wanted: u32,
    uid: &'a UserId,
    out: &mut Vec<u8>,
) -> Result<(), Memory>
    ensures { Appends (spelling (Command.WatchOn watch.now view.now fpr.now wanted uid.now)) out.old out.new result }
{
    let watch = Text(watch.octets());
    let view = Text(view.octets());
    let fpr = Key(fpr);
    let wanted = Decimal(u64::from(wanted));
    let uid = Uid(uid.octets());
    put_pieces(
        &[
            Text(b"watch "),
            watch,
            Text(b" on "),
            view,
            Text(b" "),
            fpr,
            Text(b" "),
            wanted,
            Text(b" "),
            uid,
        ],
        out,
    )
}

/// Appends the word of a command of one word.
fn put_word(command: &Command, out: &mut Vec<u8>) -> Result<(), Memory>
    requires { has_word command.now ≡ true }
    ensures { Appends (spelling command.now) out.old out.new result }
{
    put_text(command_word(command), out)
}

#[tactic(auto, unfolding(crate::specs::Spelling::spelling))]
fn put_command(command: &Command, out: &mut Vec<u8>) -> Result<(), Memory>
    ensures { Appends (spelling command.now) out.old out.new result }
{
    match command {
        Command::Import(octets) => put_import(octets.items(), out),
        Command::Load(name) => put_pieces(&[Text(b"load "), entry_piece(name)], out),
        Command::Store(fpr) => put_pieces(&[Text(b"store "), Key(fpr)], out),
        Command::Remove(fpr) => put_pieces(&[Text(b"drop "), Key(fpr)], out),
        Command::Good(number, fpr) => put_good(number, fpr, out),
        Command::Bad(number) => put_bad(number, out),
        Command::Unjudge(number) => put_unjudge(number, out),
        Command::Time(view, t) => put_time(view, *t, out),
        Command::Root(view, fpr, amount) => put_root(view, fpr, *amount, out),
        Command::Close(view) => put_close(view, out),
        Command::Ask(view, fpr, wanted, uid) => put_question(b"ask ", view, fpr, *wanted, uid, out),
        Command::List(view, wanted) => put_numbered(b"list ", view, b" ", *wanted, out),
        Command::Explain(view, fpr, uid) => put_explain(view, fpr, uid, out),
        Command::Absence(view, fpr, wanted, uid) => {
            put_question(b"absence ", view, fpr, *wanted, uid, out)
        }
        Command::Check(view, fpr, claims, labels, uid) => {
            put_check(view, fpr, claims, labels, uid, out)
        }
        Command::Export(fpr) => put_pieces(&[Text(b"export "), Key(fpr)], out),
        Command::CursorOver(cursor, view, wanted) => put_cursor_over(cursor, view, *wanted, out),
        Command::CursorNext(cursor, count) => put_numbered(
            b"cursor ", cursor, b" next ", *count, out,
        ),
        Command::CursorClose(cursor) => put_pieces(
            &[Text(b"cursor "), Text(cursor.octets()), Text(b" close")],
            out,
        ),
        Command::WatchOn(watch, view, fpr, wanted, uid) => {
            put_watch_on(watch, view, fpr, *wanted, uid, out)
        }
        Command::WatchOff(watch) => {
            put_pieces(&[Text(b"watch "), Text(watch.octets()), Text(b" off")], out)
        }
        _ => put_word(command, out),
    }
}

/// Appends the line of a command, without a line feed. After `Memory`, `out` is unchanged.
pub fn print_command(command: &Command, out: &mut Vec<u8>) -> Result<(), Memory>
    requires { HasSpelling command.now }
    ensures appended { OnOk result (out.new.items ≡ out.old.items ++ spelling command.now) }
    ensures kept { OnErr result (out.new.items ≡ out.old.items) }
    // The printed line is read back as this command.
    ensures read_back { command_of (spelling command.now) ≡ Some command.now }
    // It is one line, and neither empty nor a comment.
    ensures line { IsLineFor command.now (spelling command.now) }
{
    spelling_is_read(command);
    put_command(command, out)
}
