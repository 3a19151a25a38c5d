//! Laws: the line of a command is read back as that command. `spell` uses the last one. They use the laws of
//! fields in `wot_fields` and `wot_reply_lines`, `specs/Spelling.antt` and `specs/Grammar.antt`, and a change of
//! either shows here first.
ghost use Rattle.std.specs.Prelude.{◌≡◌, true};
ghost use Rattle.wot_script.specs.Grammar.{command_of};
ghost use Rattle.wot_script.specs.OneWord.{has_word};
ghost use Rattle.wot_script.specs.Spelling.{HasSpelling, IsLineFor, spelling};

use crate::Command;
use wot_fields::laws::{
    decimal_is_read, hex_is_read, name_is_valid, positive_is_read, uid_is_read,
};
use wot_reply_lines::laws::{
    claims_are_read, entry_is_read, labels_are_read, question_is_read, wanted_is_read,
};

/// A law: the word of a command of one word is read back as that command, and is one line.
fn word_is_read(command: &Command)
    requires { has_word command.now ≡ true }
    ensures read { command_of (spelling command.now) ≡ Some command.now }
    ensures line { IsLineFor command.now (spelling command.now) }
{
    let _command = command;
}

/// A law: the line of a command is read back as that command, is one line, is neither empty nor a comment, and is no
/// longer than `specs/Spelling.antt` says.
pub fn spelling_is_read(command: &Command)
    requires { HasSpelling command.now }
    ensures read { command_of (spelling command.now) ≡ Some command.now }
    ensures line { IsLineFor command.now (spelling command.now) }
{
    match command {
        Command::Import(octets) => hex_is_read(octets.items()),
        Command::Load(name) => entry_is_read(name),
        Command::Store(fpr) => fpr.printed_is_read(),
        Command::Remove(fpr) => fpr.printed_is_read(),
        Command::Good(number, fpr) => {
            number.printed_is_read();
            fpr.printed_is_read();
        }
        Command::Bad(number) => number.printed_is_read(),
        Command::Unjudge(number) => number.printed_is_read(),
        Command::Time(view, t) => {
            let _name = view.octets();
            decimal_is_read(u32::MAX, *t);
        }
        Command::Root(view, fpr, amount) => {
            let _name = view.octets();
            fpr.printed_is_read();
            decimal_is_read(255, u32::from(*amount));
        }
        Command::Close(view) => name_is_valid(view),
        Command::Ask(view, fpr, wanted, uid) => question_is_read(view, fpr, *wanted, uid),
        Command::List(view, wanted) => wanted_is_read(view, *wanted),
        Command::Explain(view, fpr, uid) => {
            let _name = view.octets();
            fpr.printed_is_read();
            uid_is_read(uid.octets());
        }
        Command::Absence(view, fpr, wanted, uid) => question_is_read(view, fpr, *wanted, uid),
        Command::Check(view, fpr, claims, labels, uid) => {
            let _name = view.octets();
            fpr.printed_is_read();
            claims_are_read(claims.items());
            labels_are_read(labels.items());
            uid_is_read(uid.octets());
        }
        Command::Export(fpr) => fpr.printed_is_read(),
        Command::CursorOver(cursor, view, wanted) => {
            let _cursor = cursor.octets();
            let _name = view.octets();
            positive_is_read(u32::MAX, *wanted);
        }
        Command::CursorNext(cursor, count) => wanted_is_read(cursor, *count),
        Command::CursorClose(cursor) => name_is_valid(cursor),
        Command::WatchOn(watch, view, fpr, wanted, uid) => {
            let _watch = watch.octets();
            question_is_read(view, fpr, *wanted, uid);
        }
        Command::WatchOff(watch) => name_is_valid(watch),
        _ => word_is_read(command),
    }
}
