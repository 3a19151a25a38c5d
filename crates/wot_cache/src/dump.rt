//! The dump of the engine: the keyring's commands, then the commands that open each view and set its roots. It uses
//! wot_keyring's dump. `replayed` is the law that these lines restore the state; what is added to a view has to be
//! added here.
ghost use Rattle.std.specs.Prelude.{◌≡◌, ◌<◌, ◌^◌, ◌++◌, length, map, IfOk, OnOk, OnErr};
ghost use Rattle.std.specs.List.{flat_map};
ghost use Rattle.wot_edge.specs.Roots.{IsRoots};
ghost use Rattle.wot_keyring.specs.Dump.{AreLines, IsLine, command_line_of, lines_of};
ghost use Rattle.wot_policy.specs.declared.rows.PolicyRows.{PolicyRows as Rows};
ghost use Rattle.wot_cache.specs.Views.{AreWithinLimits};
ghost use Rattle.wot_cache.specs.State.{Engine as Seen};
ghost use Rattle.wot_cache.specs.Dump.{AreSortedByName, HaveRoots, IsDumped, IsRestored};
ghost use Rattle.wot_cache.specs.Dump.{commands_over, engine_of, root_of, view_commands};

use crate::view::View;
use crate::views::Views;
use std::alloc::Global;
use wot_edge::Roots;
use wot_fields::StateLine;
use wot_keyring::{Keyring, put_line};
use wot_types::{Fpr, Memory, ViewName};

/// A law: if the keyring's commands restore what it holds, the engine's commands restore its state.
pub fn replayed()
    ensures { (rows : Rows) (engine : Seen) → IsDumped rows engine → IsRestored rows engine }
{}

/// Appends the command that opens a view at its time. After `Memory`, this and every other call of this file leaves
/// `out` unchanged.
fn put_time(alloc: Global, view: &ViewName, t: u32, out: &mut Vec<u8>) -> Result<(), Memory>
    ensures appended { OnOk result (out.new.items ≡ out.old.items ++ command_line_of (StateLine.Time view.now t)) }
    ensures line { OnOk result (IsLine (StateLine.Time view.now t)) }
    ensures kept { OnErr result (out.new.items ≡ out.old.items) }
{
    let view = view.duplicate(alloc)?;
    put_line(&StateLine::Time(view, t), out)
}

/// Appends the command that sets a root's amount.
fn put_root(
    alloc: Global,
    view: &ViewName,
    fpr: Fpr,
    amount: u8,
    out: &mut Vec<u8>,
) -> Result<(), Memory>
    ensures appended { OnOk result (out.new.items
        ≡ out.old.items ++ command_line_of (StateLine.Root view.now fpr amount)) }
    ensures line { OnOk result (IsLine (StateLine.Root view.now fpr amount)) }
    ensures kept { OnErr result (out.new.items ≡ out.old.items) }
{
    let view = view.duplicate(alloc)?;
    put_line(&StateLine::Root(view, fpr, amount), out)
}

/// Appends such a command for each root.
fn put_roots(alloc: Global, view: &ViewName, roots: &Roots, out: &mut Vec<u8>) -> Result<(), Memory>
    ensures appended { OnOk result (out.new.items ≡ out.old.items ++ lines_of (map (root_of view.now) roots.now)) }
    ensures lines { OnOk result (AreLines (map (root_of view.now) roots.now)) }
    ensures roots { IsRoots roots.now }
    ensures kept { OnErr result (out.new.items ≡ out.old.items) }
{
    let start = out.len();
    'roots: for (fpr, amount) in roots.iter() {
        if let Err(fault) = put_root(alloc, view, fpr, amount, out) {
            out.truncate(start);
            return Err(fault);
        }
    }
    Ok(())
}

/// Appends the commands that restore a view.
fn put_view(alloc: Global, name: &ViewName, view: &View, out: &mut Vec<u8>) -> Result<(), Memory>
    ensures appended { OnOk result (out.new.items ≡ out.old.items ++ lines_of (view_commands (name.now, view.now))) }
    ensures lines { OnOk result (AreLines (view_commands (name.now, view.now))) }
    ensures roots { OnOk result (IsRoots view.now.roots) }
    ensures kept { OnErr result (out.new.items ≡ out.old.items) }
{
    let start = out.len();
    put_time(alloc, name, view.time, out)?;
    match put_roots(alloc, name, &view.roots, out) {
        Ok(()) => Ok(()),
        Err(fault) => {
            out.truncate(start);
            Err(fault)
        }
    }
}

/// Appends the commands that restore each view. Returns their number.
pub fn put_views(alloc: Global, views: &Views, out: &mut Vec<u8>) -> Result<u64, Memory>
    requires few { length (flat_map view_commands views.now.entries) < 2 ^ 32 }
    ensures appended { OnOk result (out.new.items
        ≡ out.old.items ++ lines_of (flat_map view_commands views.now.entries)) }
    ensures lines { OnOk result (AreLines (flat_map view_commands views.now.entries)) }
    ensures count { IfOk result (λ count. count ≡ length (flat_map view_commands views.now.entries)) }
    ensures roots { OnOk result (HaveRoots views.now.entries) }
    ensures sorted { AreSortedByName views.now.entries }
    ensures kept { OnErr result (out.new.items ≡ out.old.items) }
{
    let start = out.len();
    let mut count = 0;
    'views: for (name, view) in views.iter() {
        if let Err(fault) = put_view(alloc, name, view, out) {
            out.truncate(start);
            return Err(fault);
        }
        count += 1 + view.roots.len() as u64;
    }
    Ok(count)
}

/// Appends the commands that restore the keyring and the views. Returns their number.
pub fn put_engine(
    alloc: Global,
    keyring: &Keyring,
    views: &Views,
    out: &mut Vec<u8>,
) -> Result<u64, Memory>
    requires within { AreWithinLimits keyring.now.limits views.now.entries }
    ensures lines { OnOk result (out.new.items
        ≡ out.old.items ++ lines_of (commands_over keyring.now views.now.entries)) }
    ensures count { IfOk result (λ count. count ≡ length (commands_over keyring.now views.now.entries)) }
    ensures kept { OnErr result (out.new.items ≡ out.old.items) }
    ensures read_back { OnOk result (AreLines (commands_over keyring.now views.now.entries)) }
    ensures size { OnOk result (length (lines_of (commands_over keyring.now views.now.entries)) < 2 ^ 30) }
    ensures restored { OnOk result ((rows : Rows) → IsRestored rows (engine_of keyring.now views.now.entries)) }
{
    replayed();
    let _limits = keyring.limits();
    let start = out.len();
    let held = keyring.dump(alloc, out)?;
    match put_views(alloc, views, out) {
        Ok(opened) => Ok(held + opened),
        Err(fault) => {
            out.truncate(start);
            Err(fault)
        }
    }
}
