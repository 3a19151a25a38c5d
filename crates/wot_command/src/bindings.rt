//! The reply to `list`: the bindings that are authenticated to an amount, as a view sees them. It uses
//! wot_explain; wot_cursor_commands prints the same lines in pieces.
ghost use Rattle.std.specs.Prelude.{◌≡◌, ◌≤◌, length, IfOk};
ghost use Rattle.wot_network.specs.Net.{network_for};
ghost use Rattle.wot_network.specs.Roads.{present_of};
ghost use Rattle.wot_cache.specs.Marks.{IsRefreshed};
ghost use Rattle.wot_cache.specs.State.{state_of};
ghost use Rattle.wot_cache.specs.Views.{view_at};
ghost use Rattle.wot_plain.specs.Listing.{Lists, ListsBy};

use std::alloc::Global;
use wot_cache::{Engine, Parts};
use wot_plain::{Refused, bind_lines, reply_to};
use wot_script::Reply;
use wot_types::{Memory, Steps, ViewName};

/// The reply to `list`: the bindings that are authenticated to the amount `wanted`, from a view. Refused if the view
/// isn't open.
pub fn list(
    alloc: Global,
    engine: &mut Engine,
    steps: &mut Steps,
    view: &ViewName,
    wanted: u32,
) -> Result<Reply, Memory>
    requires wanted { 1 ≤ wanted }
    ensures lists { IfOk result (Lists (state_of engine.old) (view_at engine.old.views view.now) wanted) }
    ensures keyring { engine.new.keyring ≡ engine.old.keyring }
    ensures views { engine.new.views ≡ engine.old.views }
    ensures refreshed { IsRefreshed result view.now engine.old engine.new steps.old.made steps.new.made }
{
    match engine.parts(view, steps) {
        Ok(parts) => list_from(alloc, &parts, wanted),
        Err(fault) => reply_to(Refused::from(fault)),
    }
}

/// The reply over the parts of the view.
fn list_from(alloc: Global, parts: &Parts<'_>, wanted: u32) -> Result<Reply, Memory>
    requires wanted { 1 ≤ wanted }
    requires few { length parts.now.roots.now ≤ 64 }
    ensures lists { IfOk result (ListsBy (network_for (present_of parts.now.roads)) parts.now.roots.now wanted
        parts.now.keyring.now) }
{
    let binds = wot_explain::list(alloc, parts.keyring, &parts.roads, parts.roots, wanted)?;
    let lines = bind_lines(alloc, binds)?;
    Ok(Reply::List(lines.items().len() as u64, lines))
}
