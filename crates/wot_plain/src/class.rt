//! Commands by what they may do. `classify` gives each command a class, and the types of the classes say what every
//! command of a class can change. `specs/Classes.antt` defines the classes; wot_command, wot_cursor_commands and
//! wot_watch_commands run them. A new command is a variant here, an arm of `classify` and a case of `class_of`.
ghost use Rattle.std.specs.Prelude.{◌≡◌};
ghost use Rattle.wot_script.specs.Spelling.{HasSpelling, FitsLine};
ghost use Rattle.wot_plain.specs.Classes.{IsFit, IsSmall, class_of};

use wot_script::{ClaimLines, Command, LabelLines, Octets};
use wot_types::{Fpr, Name, SigNumber, UserId, ViewName};
use wot_verdict::Verdict;

/// A command, by what it can change.
#[derive(Drop)]
pub enum Class {
    /// It doesn't change cursors or watches.
    State(StateCommand),
    /// It is about the cursor of this name. It doesn't change the state or the watches.
    Cursor(ViewName, CursorCommand),
    /// It is about the watch of this name. It doesn't change the state or the cursors.
    Watch(ViewName, WatchCommand),
}

/// A command that doesn't change cursors or watches.
#[derive(Drop)]
pub enum StateCommand {
    /// It changes certificates or verdicts, and no view.
    Change(Change),
    /// It changes the view of this name.
    View(ViewName, ViewChange),
    /// It asks something from the view of this name. It doesn't change the state.
    Question(ViewName, ViewQuestion),
    /// It reads the state, and doesn't change it.
    Read(Read),
    /// It calls the certificate directory.
    Shelf(ShelfCall),
}

/// A change of certificates or verdicts.
#[derive(Drop)]
pub enum Change {
    /// `import HEX`.
    Import(Octets),
    /// `drop FPR`.
    Remove(Fpr),
    /// `verdict NUM good FPR` and `verdict NUM bad`.
    Judge(SigNumber, Verdict),
    /// `verdict NUM none`.
    Unjudge(SigNumber),
}

/// A change of a view.
#[derive(Drop)]
pub enum ViewChange {
    /// `view V time T`.
    Time(u32),
    /// `view V root FPR A`.
    Root(Fpr, u8),
    /// `view V close`.
    Close,
}

/// A question that is asked from a view.
#[derive(Drop)]
pub enum ViewQuestion {
    /// `ask V FPR N UID`.
    Ask(Fpr, u32, UserId),
    /// `list V N`.
    List(u32),
    /// `explain V FPR UID`.
    Explain(Fpr, UserId),
    /// `absence V FPR N UID`.
    Absence(Fpr, u32, UserId),
    /// `check V FPR PATHS TABLE UID`.
    Check(Fpr, ClaimLines, LabelLines, UserId),
}

/// A command that reads the state.
#[derive(Drop)]
pub enum Read {
    /// `pending`.
    Pending,
    /// `keys`.
    Keys,
    /// `export FPR`.
    Export(Fpr),
    /// `dump`.
    Dump,
}

/// A call of the certificate directory.
#[derive(Drop)]
pub enum ShelfCall {
    /// `load NAME`.
    Load(Name),
    /// `store FPR`.
    Store(Fpr),
}

/// A command about a cursor.
#[derive(Drop)]
pub enum CursorCommand {
    /// `cursor C over V N`.
    Over(ViewName, u32),
    /// `cursor C next K`.
    Next(u32),
    /// `cursor C close`.
    Close,
}

/// A command about a watch.
#[derive(Drop)]
pub enum WatchCommand {
    /// `watch W on V FPR N UID`.
    On(ViewName, Fpr, u32, UserId),
    /// `watch W off`.
    Off,
}

/// The class of a command.
pub fn classify(command: Command) -> Class
    requires spelled { HasSpelling command }
    requires within { FitsLine 16777216 command }
    ensures class { result ≡ class_of command }
    ensures fit { IsFit result }
    ensures small { IsSmall result }
{
    match command {
        Command::Import(octets) => Class::State(StateCommand::Change(Change::Import(octets))),
        Command::Remove(fpr) => Class::State(StateCommand::Change(Change::Remove(fpr))),
        Command::Good(number, fpr) => Class::State(StateCommand::Change(Change::Judge(
            number,
            Verdict::Good(fpr),
        ))),
        Command::Bad(number) => Class::State(StateCommand::Change(Change::Judge(
            number,
            Verdict::Bad,
        ))),
        Command::Unjudge(number) => Class::State(StateCommand::Change(Change::Unjudge(number))),
        Command::Time(view, t) => Class::State(StateCommand::View(view, ViewChange::Time(t))),
        Command::Root(view, fpr, amount) => {
            Class::State(StateCommand::View(view, ViewChange::Root(fpr, amount)))
        }
        Command::Close(view) => Class::State(StateCommand::View(view, ViewChange::Close)),
        Command::Ask(view, target, wanted, uid) => {
            Class::State(StateCommand::Question(view, ViewQuestion::Ask(target, wanted, uid)))
        }
        Command::List(view, wanted) => Class::State(StateCommand::Question(
            view,
            ViewQuestion::List(wanted),
        )),
        Command::Explain(view, fpr, uid) => Class::State(StateCommand::Question(
            view,
            ViewQuestion::Explain(fpr, uid),
        )),
        Command::Absence(view, target, wanted, uid) => {
            Class::State(StateCommand::Question(view, ViewQuestion::Absence(target, wanted, uid)))
        }
        Command::Check(view, target, claims, labels, uid) => {
            Class::State(StateCommand::Question(
                view,
                ViewQuestion::Check(target, claims, labels, uid),
            ))
        }
        Command::Pending => Class::State(StateCommand::Read(Read::Pending)),
        Command::Keys => Class::State(StateCommand::Read(Read::Keys)),
        Command::Export(fpr) => Class::State(StateCommand::Read(Read::Export(fpr))),
        Command::Dump => Class::State(StateCommand::Read(Read::Dump)),
        Command::Load(name) => Class::State(StateCommand::Shelf(ShelfCall::Load(name))),
        Command::Store(fpr) => Class::State(StateCommand::Shelf(ShelfCall::Store(fpr))),
        Command::CursorOver(name, view, wanted) => {
            Class::Cursor(name, CursorCommand::Over(view, wanted))
        }
        Command::CursorNext(name, count) => Class::Cursor(name, CursorCommand::Next(count)),
        Command::CursorClose(name) => Class::Cursor(name, CursorCommand::Close),
        Command::WatchOn(name, view, target, wanted, uid) => {
            Class::Watch(name, WatchCommand::On(view, target, wanted, uid))
        }
        Command::WatchOff(name) => Class::Watch(name, WatchCommand::Off),
    }
}
