//! `read_line`: a line to its command.
//!
//! It uses `wot_fields`, which reads the lines that set a part of the state, `wot_reply_lines`, which reads
//! questions and claims, `one_word`, and `specs/Grammar.antt`, which it follows function by function. A new
//! command with fields is a function here and a clause there.
ghost use Rattle.std.specs.Prelude.{◌≡◌, length, Some, None, IfOk, IsErrOf};
ghost use Rattle.std.specs.Option.{option_map};
ghost use Rattle.wot_script.specs.Grammar.{about_of, command_for, command_of, other_of, over_of, view_of, watch_of};
ghost use Rattle.wot_script.specs.declared.read.About.TheVariants.{Asked, Listed, Explained, Missed, Checked, Paced};
ghost use Rattle.wot_script.specs.declared.read.About.TheVariants.{Watched};
ghost use Rattle.wot_script.specs.Spelling.{HasSpelling, FitsLine};
ghost use Rattle.wot_fields.specs.Decimal.{positive_up_to};
ghost use Rattle.wot_reply_lines.specs.Entry.{entry_of};
ghost use Rattle.wot_types.specs.Fpr.{fpr_of_digits};

use crate::Command;
use crate::one_word::read_single;
use std::alloc::Global;
use wot_fields::laws::state_lines_fit;
use wot_fields::{StateLine, after_prefix, cut_field, read_positive, read_state_line, read_uid};
use wot_reply_lines::{Question, read_claims, read_entry, read_labels, read_question};
use wot_types::{Fpr, Memory, ViewName};

/// Why a line is no command.
#[derive(Clone, Copy)]
pub enum LineFault {
    /// It spells no command.
    Line,
    /// Out of memory.
    Memory,
}

/// The command of a line that sets a part of the state.
fn command_for(line: StateLine) -> Command
    ensures { result ≡ command_for line }
{
    match line {
        StateLine::Import(octets) => Command::Import(octets),
        StateLine::Good(number, fpr) => Command::Good(number, fpr),
        StateLine::Bad(number) => Command::Bad(number),
        StateLine::Unjudge(number) => Command::Unjudge(number),
        StateLine::Time(view, t) => Command::Time(view, t),
        StateLine::Root(view, fpr, amount) => Command::Root(view, fpr, amount),
        StateLine::Close(view) => Command::Close(view),
    }
}

fn read_load(text: &[u8]) -> Option<Command>
    ensures { result ≡ option_map Command.Load (entry_of text.now) }
{
    let name = read_entry(text)?;
    Some(Command::Load(name))
}

fn read_store(digits: &[u8]) -> Option<Command>
    ensures { result ≡ option_map Command.Store (fpr_of_digits digits.now) }
{
    let fpr = Fpr::read(digits)?;
    Some(Command::Store(fpr))
}

fn read_drop(digits: &[u8]) -> Option<Command>
    ensures { result ≡ option_map Command.Remove (fpr_of_digits digits.now) }
{
    let fpr = Fpr::read(digits)?;
    Some(Command::Remove(fpr))
}

fn read_export(digits: &[u8]) -> Option<Command>
    ensures { result ≡ option_map Command.Export (fpr_of_digits digits.now) }
{
    let fpr = Fpr::read(digits)?;
    Some(Command::Export(fpr))
}

fn read_asked(alloc: Global, view: ViewName, text: &[u8]) -> Result<Option<Command>, Memory>
    ensures { IfOk result (λ command. command ≡ about_of Asked view text.now) }
{
    let Some(question) = read_question(alloc, text)? else {
        return Ok(None);
    };
    let Question { fpr, wanted, uid } = question;
    Ok(Some(Command::Ask(view, fpr, wanted, uid)))
}

fn read_missed(alloc: Global, view: ViewName, text: &[u8]) -> Result<Option<Command>, Memory>
    ensures { IfOk result (λ command. command ≡ about_of Missed view text.now) }
{
    let Some(question) = read_question(alloc, text)? else {
        return Ok(None);
    };
    let Question { fpr, wanted, uid } = question;
    Ok(Some(Command::Absence(view, fpr, wanted, uid)))
}

fn read_checked(alloc: Global, view: ViewName, text: &[u8]) -> Result<Option<Command>, Memory>
    ensures { IfOk result (λ command. command ≡ about_of Checked view text.now) }
{
    let Some(first) = cut_field(text) else {
        return Ok(None);
    };
    let Some(fpr) = Fpr::read(first.field) else {
        return Ok(None);
    };
    let Some(second) = cut_field(first.rest) else {
        return Ok(None);
    };
    let Some(claims) = read_claims(alloc, second.field)? else {
        return Ok(None);
    };
    let Some(third) = cut_field(second.rest) else {
        return Ok(None);
    };
    let Some(labels) = read_labels(alloc, third.field)? else {
        return Ok(None);
    };
    let Some(uid) = read_uid(alloc, third.rest)? else {
        return Ok(None);
    };
    Ok(Some(Command::Check(view, fpr, claims, labels, uid)))
}

fn read_listed(view: ViewName, digits: &[u8]) -> Option<Command>
    ensures { result ≡ about_of Listed view digits.now }
{
    let wanted = read_positive(u32::MAX, digits)?;
    Some(Command::List(view, wanted))
}

fn read_explained(alloc: Global, view: ViewName, text: &[u8]) -> Result<Option<Command>, Memory>
    ensures { IfOk result (λ command. command ≡ about_of Explained view text.now) }
{
    let Some(second) = cut_field(text) else {
        return Ok(None);
    };
    let Some(fpr) = Fpr::read(second.field) else {
        return Ok(None);
    };
    let Some(uid) = read_uid(alloc, second.rest)? else {
        return Ok(None);
    };
    Ok(Some(Command::Explain(view, fpr, uid)))
}

#[tactic(auto, unfolding(crate::specs::Grammar::over_of))]
fn read_over(alloc: Global, cursor: ViewName, text: &[u8]) -> Result<Option<Command>, Memory>
    ensures { IfOk result (λ command. command ≡ over_of cursor text.now) }
{
    let Some(first) = cut_field(text) else {
        return Ok(None);
    };
    let Some(view) = ViewName::read(alloc, first.field)? else {
        return Ok(None);
    };
    let Some(wanted) = read_positive(u32::MAX, first.rest) else {
        return Ok(None);
    };
    Ok(Some(Command::CursorOver(cursor, view, wanted)))
}

fn read_next(cursor: ViewName, digits: &[u8]) -> Option<Command>
    ensures { result ≡ option_map (Command.CursorNext cursor) (positive_up_to 4294967295 digits.now) }
{
    let count = read_positive(u32::MAX, digits)?;
    Some(Command::CursorNext(cursor, count))
}

fn read_paced(alloc: Global, cursor: ViewName, text: &[u8]) -> Result<Option<Command>, Memory>
    ensures { IfOk result (λ command. command ≡ about_of Paced cursor text.now) }
{
    if let Some(rest) = after_prefix(b"over ", text) {
        return read_over(alloc, cursor, rest);
    }
    if let Some(digits) = after_prefix(b"next ", text) {
        return Ok(read_next(cursor, digits));
    }
    if text == b"close".as_slice() {
        return Ok(Some(Command::CursorClose(cursor)));
    }
    Ok(None)
}

#[tactic(auto, unfolding(crate::specs::Grammar::watch_of))]
fn read_watch(alloc: Global, watch: ViewName, text: &[u8]) -> Result<Option<Command>, Memory>
    ensures { IfOk result (λ command. command ≡ watch_of watch text.now) }
{
    let Some(first) = cut_field(text) else {
        return Ok(None);
    };
    let Some(view) = ViewName::read(alloc, first.field)? else {
        return Ok(None);
    };
    let Some(question) = read_question(alloc, first.rest)? else {
        return Ok(None);
    };
    let Question { fpr, wanted, uid } = question;
    Ok(Some(Command::WatchOn(watch, view, fpr, wanted, uid)))
}

fn read_watched(alloc: Global, watch: ViewName, text: &[u8]) -> Result<Option<Command>, Memory>
    ensures { IfOk result (λ command. command ≡ about_of Watched watch text.now) }
{
    if let Some(rest) = after_prefix(b"on ", text) {
        return read_watch(alloc, watch, rest);
    }
    if text == b"off".as_slice() {
        return Ok(Some(Command::WatchOff(watch)));
    }
    Ok(None)
}

/// Which command a line with the name of a view, a cursor or a watch is.
#[derive(Clone, Copy)]
pub enum About {
    /// It asks for an answer.
    Asked,
    /// It asks for a list.
    Listed,
    /// It asks for reasons.
    Explained,
    /// It asks for a proof of absence.
    Missed,
    /// It asks to check a proof of absence.
    Checked,
    /// It is about a cursor.
    Paced,
    /// It is about a watch.
    Watched,
}

fn read_about(
    alloc: Global,
    about: About,
    view: ViewName,
    text: &[u8],
) -> Result<Option<Command>, Memory>
    ensures { IfOk result (λ command. command ≡ about_of about view text.now) }
{
    match about {
        About::Asked => read_asked(alloc, view, text),
        About::Listed => Ok(read_listed(view, text)),
        About::Explained => read_explained(alloc, view, text),
        About::Missed => read_missed(alloc, view, text),
        About::Checked => read_checked(alloc, view, text),
        About::Paced => read_paced(alloc, view, text),
        About::Watched => read_watched(alloc, view, text),
    }
}

fn read_view(alloc: Global, about: About, text: &[u8]) -> Result<Option<Command>, Memory>
    ensures { IfOk result (λ command. command ≡ view_of about text.now) }
{
    let Some(first) = cut_field(text) else {
        return Ok(None);
    };
    let Some(view) = ViewName::read(alloc, first.field)? else {
        return Ok(None);
    };
    read_about(alloc, about, view, first.rest)
}

#[tactic(auto, unfolding(crate::specs::Grammar::other_of))]
fn read_other(alloc: Global, line: &[u8]) -> Result<Option<Command>, Memory>
    ensures { IfOk result (λ command. command ≡ other_of line.now) }
{
    if let Some(rest) = after_prefix(b"load ", line) {
        return Ok(read_load(rest));
    }
    if let Some(rest) = after_prefix(b"drop ", line) {
        return Ok(read_drop(rest));
    }
    if let Some(rest) = after_prefix(b"ask ", line) {
        return read_view(alloc, About::Asked, rest);
    }
    if let Some(rest) = after_prefix(b"list ", line) {
        return read_view(alloc, About::Listed, rest);
    }
    if let Some(rest) = after_prefix(b"explain ", line) {
        return read_view(alloc, About::Explained, rest);
    }
    if let Some(rest) = after_prefix(b"absence ", line) {
        return read_view(alloc, About::Missed, rest);
    }
    if let Some(rest) = after_prefix(b"check ", line) {
        return read_view(alloc, About::Checked, rest);
    }
    if let Some(rest) = after_prefix(b"export ", line) {
        return Ok(read_export(rest));
    }
    if let Some(rest) = after_prefix(b"cursor ", line) {
        return read_view(alloc, About::Paced, rest);
    }
    if let Some(rest) = after_prefix(b"watch ", line) {
        return read_view(alloc, About::Watched, rest);
    }
    if let Some(rest) = after_prefix(b"store ", line) {
        return Ok(read_store(rest));
    }
    Ok(read_single(line))
}

#[tactic(auto, unfolding(crate::specs::Grammar::command_of))]
fn read_command(alloc: Global, line: &[u8]) -> Result<Option<Command>, Memory>
    ensures { IfOk result (λ command. command ≡ command_of line.now) }
{
    match read_state_line(alloc, line)? {
        Some(read) => Ok(Some(command_for(read))),
        None => read_other(alloc, line),
    }
}

/// Reads a line, without its line feed, as a command. Empty lines and comments are no commands. There is no limit on
/// the length here.
pub fn read_line(alloc: Global, line: &[u8]) -> Result<Command, LineFault>
    ensures read { IfOk result (λ command. command_of line.now ≡ Some command) }
    ensures line { IsErrOf result LineFault.Line → command_of line.now ≡ None }
    // A question, a list and a cursor that were read want at least 1, and `next` asks for at least 1.
    ensures spelled { IfOk result HasSpelling }
    // An import's octets have two digits each, and each path of a claim has octets of its own.
    ensures within { IfOk result (FitsLine (length line.now)) }
{
    state_lines_fit();
    match read_command(alloc, line) {
        Ok(Some(command)) => Ok(command),
        Ok(None) => Err(LineFault::Line),
        Err(Memory) => Err(LineFault::Memory),
    }
}
